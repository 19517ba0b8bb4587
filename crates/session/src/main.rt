// The session program: records from standard input, at most 64,000 bytes of them, and what the session prints to
// standard output. The session itself is the crate `steps`.

#![tactic(auto)]

ghost use Rattle.std.specs.Prelude.{◌≤◌, length, IfOk};

use std::io;
use std::io::Read;

// Reads until `buf` is full or the input ends, and answers how many bytes it put at the start of `buf`. One read may
// give fewer bytes than there is room for. Each read has all the room that is left: of a packet longer than what a read
// asks for (`io::copy` asks for 8,192 bytes) the rest is lost.
fn read_full(from: &mut impl Read, buf: &mut [u8]) -> io::Result<usize>
    ensures { IfOk result (λ n. n ≤ length buf.new) }
{
    let mut done = 0;
    while done < buf.len() {
        let n = from.read(&mut buf[done..])?;
        if n == 0 {
            break;
        }
        done += n;
    }
    Ok(done)
}

fn main(rt: HostRuntime) -> io::Result<()> {
    let mut input = [0u8; 64000];
    let n = read_full(&mut rt.stdin(), &mut input)?;
    let mut out = [0u8; 264037];
    let m = runs::run(&input[..n], &mut out);
    rt.write_all(&out[..m])
}
