// Chunks: up to 8,192 arcs of a text at a time, copied into an array and found again by their nodes. An arc is one
// number of 64 bits: its two nodes, 16 bits each, which are its key, and below them the 32 bits of its number.
ghost use Rattle.std.specs.Prelude.{◌≡◌, ◌+◌, ◌*◌, ◌/◌, ◌%◌, ◌≤◌, ◌<◌, length};
ghost use Rattle.roads.specs.work.Line.{KindFits};
ghost use Rattle.arcs.specs.work.Chunk.{
  turned_key,
  key_at,
  bucket,
  Loaded,
  link,
  LastAt,
  Buckets,
  Searchable,
};

use roads::{Kind, Step, next_arc};

// Where the arcs of a text begin, and how they are read.
#[derive(Clone, Copy)]
pub(crate) struct Road<'a> {
    pub text: &'a [u8],
    pub at: usize,
    pub kind: Kind,
}

#[derive(Drop)]
pub(crate) struct Chunk {
    pub arcs: [u64; 8192],
    pub count: usize,
}

// The places of a chunk, chained by the buckets of their keys. A link is one more than a place, or 0 for none: as
// `Option<u16>` it would take twice the memory.
#[derive(Drop)]
pub(crate) struct Links {
    pub first: [u16; 8192],
    pub next: [u16; 8192],
}

// What is worked in: two chunks, of which the links are one's, and the marks on the places of that one, bytes since a
// bool takes as much and the laws of a look (`ChunkIn`) speak of numbers.
#[derive(Drop)]
pub(crate) struct Work {
    pub one: Chunk,
    pub other: Chunk,
    pub links: Links,
    pub seen: [u8; 8192],
}

// An arc as one number.
fn packed(from: u16, to: u16, number: u32) -> u64
    ensures { (result / 4294967296 ≡ 65536 * from + to) × (result % 4294967296 ≡ number) }
{
    4294967296 * (65536 * u64::from(from) + u64::from(to)) + u64::from(number)
}

pub(crate) fn key_of(arc: u64) -> u32
    ensures { result ≡ arc / 4294967296 }
{
    (arc / 4294967296) as u32
}

// The key of the opposite arc.
pub(crate) fn turned(key: u32) -> u32
    ensures { result ≡ turned_key key }
{
    65536 * (key % 65536) + key / 65536
}

fn bucket_of(key: u32) -> usize
    ensures { (result ≡ bucket key) × (result < 8192) }
{
    (key % 8179) as usize
}

impl Chunk {
    // Copies so many arcs from a place on; the answer is the place after them.
    pub(crate) fn load(&mut self, s: &[u8], at: usize, kind: Kind, count: usize) -> usize
        requires { (count ≤ 8192) × KindFits kind }
        ensures { (length self.new.arcs ≡ 8192)
            × (self.new.count ≡ count)
            × Loaded kind s.now at count result self.new.arcs }
    {
        self.arcs = [0; 8192];
        self.count = count;
        let mut c = at;
        for t in 0..count {
            let Some(
                Step {
                    from,
                    to,
                    number,
                    next,
                },
            ) = next_arc(s, c, kind)
            else {
                return c;
            };
            self.arcs[t] = packed(from, to, number);
            c = next;
        }
        c
    }
}

impl Links {
    pub(crate) fn chain(&mut self, chunk: &Chunk)
        requires { (length chunk.now.arcs ≡ 8192) × (chunk.now.count ≤ 8192) }
        ensures { Buckets chunk.now.arcs chunk.now.count self.new.first self.new.next }
    {
        self.first.fill(0);
        self.next.fill(0);
        for i in 0..chunk.count {
            let v = bucket_of(key_of(chunk.arcs[i]));
            self.next[i] = self.first[v];
            self.first[v] = (i + 1) as u16;
        }
    }

    // The last place that holds an arc of this key.
    pub(crate) fn find(&self, chunk: &Chunk, key: u32) -> Option<usize>
        requires { Searchable chunk.now.count chunk.now.arcs self.now.first self.now.next }
        ensures { LastAt (key_at chunk.now.arcs) key chunk.now.count (link result) }
    {
        let mut i = usize::from(self.first[bucket_of(key)]);
        while i > 0 {
            let h = i - 1;
            if key_of(chunk.arcs[h]) == key {
                return Some(h);
            }
            i = usize::from(self.next[h]);
        }
        None
    }
}
