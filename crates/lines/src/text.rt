// Lines in decimal, appended to a text that has room for them. `push_str` is proved to append where there is room; of
// `write!` no clause says when it does.
ghost use Rattle.std.specs.Prelude.{◌≡◌, ◌++◌, ◌+◌, ◌≤◌, length};
ghost use Rattle.arrayvec.specs.ArrayString.{array_string_len};
ghost use Rattle.lines.specs.Lines.{number, line, ending};

use crate::tally::Tally;
use arrayvec::ArrayString;
use itoa::Buffer;

// Appends n in decimal, and then the byte `end`.
fn push_number<const CAP: usize>(out: &mut ArrayString<CAP>, n: u32, end: &str)
    requires { (array_string_len out.old + 11 ≤ CAP) × (length end.now ≤ 1) }
    ensures text { out.new.bytes ≡ out.old.bytes ++ number n end.now }
    ensures near { array_string_len out.new ≤ array_string_len out.old + 11 }
{
    let mut buffer = Buffer::new();
    out.push_str(buffer.format(n));
    out.push_str(end);
}

// Appends a line of three numbers, of 33 bytes at most.
#[tactic(auto, unfolding(crate::specs::Lines::line))]
pub fn push_line<const CAP: usize>(out: &mut ArrayString<CAP>, a: u32, b: u32, c: u32)
    requires { array_string_len out.old + 33 ≤ CAP }
    ensures text { out.new.bytes ≡ out.old.bytes ++ line a b c }
    ensures near { array_string_len out.new ≤ array_string_len out.old + 33 }
{
    push_number(out, a, " ");
    push_number(out, b, " ");
    push_number(out, c, "\n");
}

// Appends the last line: the word `end`, and the tally.
#[tactic(auto, unfolding(crate::specs::Lines::ending))]
pub fn push_ending<const CAP: usize>(out: &mut ArrayString<CAP>, tally: Tally)
    requires { array_string_len out.old + 37 ≤ CAP }
    ensures text { out.new.bytes ≡ out.old.bytes ++ ending tally }
    ensures near { array_string_len out.new ≤ array_string_len out.old + 37 }
{
    out.push_str("end ");
    push_line(out, tally.records, tally.accepted, tally.refused);
}
