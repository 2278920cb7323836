// Whole texts: the next arc from a place on, what a text says in numbers, and what two texts say together.
ghost use Rattle.std.specs.Prelude.{◌<◌};
ghost use Rattle.roads.specs.work.Line.{KindFits};
ghost use Rattle.roads.specs.work.Whole.{StepOf, CountOf, SurveyOf, TextsOf};

use crate::line::{Kind, Step, arc_line, past_comments, problem_line};
use crate::{LENGTH_LOW, LENGTH_TOP, WEIGHT_LOW, WEIGHT_TOP};

// The next arc from a place on, after comments alone: a text is gone along from the place after its p line, and from
// any place reached so.
pub fn next_arc(s: &[u8], at: usize, kind: Kind) -> Option<Step>
    requires { KindFits kind }
    ensures { StepOf kind.top kind.low kind.nodes s.now at result }
{
    arc_line(s, past_comments(s, at), kind)
}

// How many arcs the lines from a place to the end of a text say; none, where one of them is no comment and no arc.
fn count_arcs(s: &[u8], first: usize, kind: Kind) -> Option<usize>
    requires { KindFits kind }
    ensures { CountOf kind.top kind.low kind.nodes s.now first result }
{
    let mut i = past_comments(s, first);
    let mut k: usize = 0;
    while i < s.len() {
        let arc = arc_line(s, i, kind)?;
        i = past_comments(s, arc.next);
        k += 1;
    }
    Some(k)
}

// What a text says, in numbers: the two counts of its p line, the place after it, and how many arcs follow.
#[derive(Clone, Copy)]
pub(crate) struct Survey {
    pub nodes: u16,
    pub count: u64,
    pub first: usize,
    pub arcs: usize,
}

fn survey_of(s: &[u8], top: u64, low: u64) -> Option<Survey>
    requires { (top < 4294967296) × (low < 4294967296) }
    ensures { SurveyOf top low s.now result }
{
    let problem = problem_line(s, past_comments(s, 0))?;
    let nodes = problem.nodes;
    let arcs = count_arcs(s, problem.next, Kind { nodes, top, low })?;
    Some(Survey {
        nodes,
        count: problem.count,
        first: problem.next,
        arcs,
    })
}

// What two texts that agree have: the node count, the number of arcs of each, and the places after their p lines.
#[derive(Clone, Copy)]
pub struct Texts {
    pub nodes: u16,
    pub arcs: usize,
    pub lengths: usize,
    pub weights: usize,
}

// What two texts say together, or what is refused, 25 or 26.
pub fn both(s: &[u8], w: &[u8]) -> Result<Texts, u8>
    ensures { TextsOf s.now w.now result }
{
    let Some(lengths) = survey_of(s, LENGTH_TOP, LENGTH_LOW) else {
        return Err(25);
    };
    let Some(weights) = survey_of(w, WEIGHT_TOP, WEIGHT_LOW) else {
        return Err(25);
    };
    if lengths.nodes != weights.nodes
        || lengths.count != weights.count
        || lengths.count != lengths.arcs as u64
        || weights.count != weights.arcs as u64
    {
        return Err(26);
    }
    Ok(Texts {
        nodes: lengths.nodes,
        arcs: lengths.arcs,
        lengths: lengths.first,
        weights: weights.first,
    })
}
