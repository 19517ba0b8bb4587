// A heap of a few pages, its tables and its record, and the calls on it.
use answers::{Counts, Refusal};
use layout::lent::View;
use rules::Record;

#[derive(Clone, Copy)]
pub struct Small<const WORDS: usize, const PAGES: usize> {
    pub heap: [u32; WORDS],
    pub labels: [u16; PAGES],
    pub links: [u16; PAGES],
    pub rec: Record,
}

impl<const WORDS: usize, const PAGES: usize> Small<WORDS, PAGES> {
    // Before any start: the memory holds anything, and the record is none.
    pub fn new() -> Self {
        Small {
            heap: [7; WORDS],
            labels: [7; PAGES],
            links: [7; PAGES],
            rec: Record {
                page: 0,
                pages: 0,
                label: 0,
                opened: 0,
                fill: 0,
            },
        }
    }

    // An empty heap that goes with this record.
    pub fn empty(rec: Record) -> Self {
        Small {
            heap: [0; WORDS],
            labels: [0; PAGES],
            links: [0; PAGES],
            rec,
        }
    }

    fn view(&self) -> View<'_> {
        View {
            heap: &self.heap,
            labels: &self.labels,
            links: &self.links,
            rec: self.rec,
        }
    }

    pub fn start(&mut self, page: u32, pages: u32) -> Result<u32, Refusal> {
        let accepted = heap::start(
            &mut self.heap,
            &mut self.labels,
            &mut self.links,
            page,
            pages,
        )?;
        self.rec = accepted.rec;
        Ok(accepted.value)
    }

    pub fn allocate(&mut self, d: u32, p: u32) -> Result<u32, Refusal> {
        let accepted = heap::allocate(
            &mut self.heap,
            &mut self.labels,
            &self.links,
            self.rec,
            d,
            p,
        )?;
        self.rec = accepted.rec;
        Ok(accepted.value)
    }

    pub fn look_up(&self, address: u32) -> Result<u32, Refusal> {
        Ok(objects::look_up(&self.view(), address)?.value)
    }

    pub fn load(&self, address: u32, index: u32) -> Result<u32, Refusal> {
        Ok(objects::load(&self.view(), address, index)?.value)
    }

    pub fn store(&mut self, address: u32, index: u32, value: u32) -> Result<u32, Refusal> {
        let accepted = objects::store(
            &mut self.heap,
            &self.labels,
            &self.links,
            self.rec,
            address,
            index,
            value,
        )?;
        Ok(accepted.value)
    }

    pub fn collect(&mut self, roots: &mut [u32], hints: &[u32]) -> Result<Counts, Refusal> {
        let counts = collector::collect(
            &mut self.heap,
            &mut self.labels,
            &mut self.links,
            self.rec,
            roots,
            hints,
        )?;
        self.rec = counts.rec;
        Ok(counts)
    }
}
