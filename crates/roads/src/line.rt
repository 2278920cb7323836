// One line at a place of a text: comments are passed, the p line and the line of an arc are read.
ghost use Rattle.std.specs.Prelude.{◌≤◌, length};
ghost use Rattle.roads.specs.work.Line.{EndOf, WordOf, PastComments, ProblemOf, KindFits, ArcOf};

use crate::number::{LINE_END, Scanned, arc_number, bounded, field};

const SPACE: u8 = b' ';

const COMMENT: u8 = b'c';

// How the arcs of a text are read: nodes from 1 to `nodes`, numbers from -low to top.
#[derive(Clone, Copy)]
pub struct Kind {
    pub nodes: u16,
    pub top: u64,
    pub low: u64,
}

// The place after the first line feed from a place on.
fn line_end(s: &[u8], at: usize) -> Option<usize>
    ensures { EndOf s.now at result }
{
    for i in at..s.len() {
        if s[i] == LINE_END {
            return Some(i + 1);
        }
    }
    None
}

// The place after a word that stands at a place.
fn after_word(s: &[u8], at: usize, word: &[u8]) -> Option<usize>
    requires { 1 ≤ length word.now }
    ensures { WordOf s.now at word.now result }
{
    if s.get(at..)?.starts_with(word) {
        Some(at + word.len())
    } else {
        None
    }
}

// The place of the first line from a place on that is no comment.
pub(crate) fn past_comments(s: &[u8], at: usize) -> usize
    ensures { PastComments s.now at result }
{
    let mut i = at;
    while i < s.len() {
        if s[i] != COMMENT {
            return i;
        }
        let Some(next) = line_end(s, i + 1) else {
            return i;
        };
        i = next;
    }
    i
}

// The p line's two counts and the place after it.
#[derive(Clone, Copy)]
pub(crate) struct Counts {
    pub nodes: u16,
    pub count: u64,
    pub next: usize,
}

pub(crate) fn problem_line(s: &[u8], at: usize) -> Option<Counts>
    ensures { ProblemOf s.now at result }
{
    let i = after_word(s, at, b"p sp ")?;
    let nodes = bounded(s, i, SPACE, 0, 65535)?;
    let Scanned { value: count, next } = field(s, nodes.next, LINE_END)?;
    Some(Counts {
        nodes: nodes.value as u16,
        count,
        next,
    })
}

// An arc, its number in 32 bits, and the place after its line.
#[derive(Clone, Copy)]
pub struct Step {
    pub from: u16,
    pub to: u16,
    pub number: u32,
    pub next: usize,
}

// The line of an arc.
pub(crate) fn arc_line(s: &[u8], at: usize, kind: Kind) -> Option<Step>
    requires { KindFits kind }
    ensures { ArcOf kind.top kind.low kind.nodes s.now at result }
{
    let i = after_word(s, at, b"a ")?;
    let most = u64::from(kind.nodes);
    let from = bounded(s, i, SPACE, 1, most)?;
    let to = bounded(s, from.next, SPACE, 1, most)?;
    let number = arc_number(s, to.next, kind.top, kind.low)?;
    Some(Step {
        from: from.value as u16,
        to: to.value as u16,
        number: number.value as u32,
        next: number.next,
    })
}
