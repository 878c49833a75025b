// The run panel of a bench: the packs that a principal may run, and those that it may export.
#![tactic(auto)]

ghost use Rattle.std.specs.Prelude.{◌≡◌, ◌<◌, length};
ghost use Rattle.sorts.specs.Numbers.{number_of, speakers, packs, all_marks};
ghost use Rattle.bookform.specs.Answers.{answer_at};
ghost use Rattle.panel.specs.Panels.{conclusion_of, PanelOf};
ghost use Rattle.panel.specs.Inner.Words.{one_for, Admitted, WordOf};

use bookform::answer::Answer;
use bookform::{Book, answer};
use sorts::{Concl, Pack, Prin, Refusal, Res};

// The two rights over packs, which the definitions name; a closure that makes the conclusion would be told of in each contract.
#[derive(Clone, Copy)]
pub enum PackRight {
    Run,
    Export,
}

// Bit n of a word is 1 where run, or export, of pack n is permitted. It is 0 where that is open.
#[derive(Clone, Copy)]
pub struct Panel {
    pub run: u32,
    pub export: u32,
}

// The principal's right over pack n, as a closed conclusion.
fn conclusion(p: u8, x: PackRight, n: u8) -> Concl
    requires { (p < speakers) × (n < packs) }
    ensures { (result ≡ conclusion_of p x n) × (number_of result < all_marks) }
{
    match x {
        PackRight::Run => Concl::Perm(Prin(p), Res::Run(Pack(n))),
        PackRight::Export => Concl::Perm(Prin(p), Res::Export(Pack(n))),
    }
}

// 1 where a closed conclusion is permitted, else 0.
fn one(c: Concl, marks: &[u8], second: &[u8]) -> u32
    requires { (number_of c < length marks.now) × (number_of c < length second.now) }
    ensures { result ≡ one_for (answer_at marks.now second.now (number_of c)) }
{
    match answer::answer_for(c, marks, second) {
        Answer::Permitted => 1,
        _ => 0,
    }
}

// The word of one right: from the last pack to the first, twice what was there and one bit more. A loop of its own, for the panel needs none
// of the evaluation's crates.
fn word(p: u8, x: PackRight, marks: &[u8], second: &[u8]) -> u32
    requires { (p < speakers) × (length marks.now ≡ all_marks) × (length second.now ≡ all_marks) }
    ensures { WordOf marks.now second.now p x result }
{
    let mut w: u32 = 0;
    for n in (0..Pack::COUNT).rev() {
        w = 2 * w + one(conclusion(p, x, n), marks, second);
    }
    w
}

// Whether a panel is shown: only of a book in form, and only to a principal.
fn admit(b: Book, marks: &[u8], second: &[u8], p: u8) -> Result<(), Refusal>
    ensures { Admitted b marks.now second.now p result }
{
    if !bookform::in_form(b, marks, second) {
        return Err(Refusal::Form);
    }
    if p >= Prin::SPEAKERS {
        return Err(Refusal::Range);
    }
    Ok(())
}

// The panel of a principal over a lent book. The marks stay slices, as they are lent: `admit` says that they are as many as there are, and
// arrays would be two more refusals here.
pub fn show(b: Book, marks: &[u8], second: &[u8], p: u8) -> Result<Panel, Refusal>
    ensures { PanelOf b marks.now second.now p result }
{
    admit(b, marks, second, p)?;
    let run = word(p, PackRight::Run, marks, second);
    let export = word(p, PackRight::Export, marks, second);
    Ok(Panel { run, export })
}
