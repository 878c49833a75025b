// The readers of a grant and of a conclusion, which call each other: one pass from left to right that reads and numbers.
#![tactic(auto)]

ghost use Rattle.std.specs.Prelude.{◌≡◌, ◌≤◌};
ghost use Rattle.sorts.specs.Numbers.{conditions};
ghost use Rattle.frames.specs.Bytes.{as_read};
ghost use Rattle.grants.specs.Inner.OnePass.{Matches, blank_conds, num_grant, num_concl, num_conds, num_issue, num_property, num_packed};

use frames::ranges::{Cursor, Scope};
use rows::Numbering;
use sorts::{Concl, Cond, GrantNo, Number, Pack, Prin, Refusal, Res, Row};

// The last property.
const LAST_PROPERTY: u8 = Number::PROPERTIES as u8 - 1;

// Each reader finds a value with the cursor after it, or the first fault; in the table that it is lent it numbers what it reads.

// A grant; `left` grants may stand one inside the other from here on, this one counted.
#[cycle(grants)]
#[tactic(auto, unfolding(crate::specs::Inner::OnePass::num_grant, crate::specs::Inner::OnePass::num_with, crate::specs::Inner::OnePass::onward))]
pub fn read_grant<'a>(
    c: Cursor<'a>,
    left: u8,
    t: &mut Numbering,
) -> Result<(GrantNo, Cursor<'a>), Refusal>
    ensures { Matches c.entry (λ s at. num_grant left s at t.old) result t.new }
{
    if left == 0 {
        return Err(Refusal::Depth);
    }
    let below = left - 1;
    let (h, c) = c.header()?;
    let v = h.scope;
    let (conds, c) = read_conds(c, below, v, h.count, t)?;
    let (head, c) = read_concl(c, below, v, t)?;
    let row = Row {
        prins: v.prins,
        res: v.res,
        count: h.count,
        conds,
        head,
    };
    let no = t.enter(row);
    Ok((no, c))
}

// So many conditions of a grant that declares v; the places after them are blank.
#[cycle(grants)]
#[tactic(auto, unfolding(crate::specs::Inner::OnePass::num_conds, crate::specs::Inner::OnePass::onward))]
fn read_conds<'a>(
    c: Cursor<'a>,
    below: u8,
    v: Scope,
    count: u8,
    t: &mut Numbering,
) -> Result<([Cond; Row::CONDITIONS], Cursor<'a>), Refusal>
    requires { count ≤ conditions }
    ensures { Matches c.entry (λ s at. num_conds (num_grant below s) v s count at 0 blank_conds t.old) result t.new }
{
    let blank = Cond::blank();
    let mut conds = [blank; Row::CONDITIONS];
    let mut n = c;
    for i in 0..count as usize {
        let (who, after) = n.prin(v)?;
        let (what, after) = read_concl(after, below, v, t)?;
        conds[i] = Cond {
            who: Prin(who),
            what,
        };
        n = after;
    }
    Ok((conds, n))
}

// A conclusion of a grant that declares v. Its kind, and below the tag of an issue right, is a byte that is told where it is read: an enum
// would be made of it by the same comparisons.
#[cycle(grants)]
#[tactic(auto, unfolding(crate::specs::Inner::OnePass::num_concl, crate::specs::Inner::OnePass::onward))]
pub fn read_concl<'a>(
    c: Cursor<'a>,
    below: u8,
    v: Scope,
    t: &mut Numbering,
) -> Result<(Concl, Cursor<'a>), Refusal>
    ensures { Matches c.entry (λ s at. num_concl (num_grant below s) v s at t.old) result t.new }
{
    let (kind, c) = c.upto(3)?;
    if kind == 0 {
        return read_property(c, v);
    }
    let (p, c) = c.prin(v)?;
    if kind == 1 {
        read_issue(c, below, v, Prin(p), t)
    } else {
        read_packed(c, v, kind, Prin(p))
    }
}

// The property and the principal of a conclusion of kind 0.
#[tactic(auto, unfolding(crate::specs::Inner::OnePass::num_property))]
fn read_property<'a>(c: Cursor<'a>, v: Scope) -> Result<(Concl, Cursor<'a>), Refusal>
    ensures { result ≡ as_read c.entry (num_property v) }
{
    let (k, c) = c.upto(LAST_PROPERTY)?;
    let (p, c) = c.prin(v)?;
    Ok((Concl::Property(k, Prin(p)), c))
}

// The pack of p's run right (kind 2) or export right (kind 3).
#[tactic(auto, unfolding(crate::specs::Inner::OnePass::num_packed))]
fn read_packed<'a>(
    c: Cursor<'a>,
    v: Scope,
    kind: u8,
    p: Prin,
) -> Result<(Concl, Cursor<'a>), Refusal>
    ensures { result ≡ as_read c.entry (num_packed v kind p) }
{
    let (n, c) = c.pack(v)?;
    let over = if kind == 2 {
        Res::Run(Pack(n))
    } else {
        Res::Export(Pack(n))
    };
    Ok((Concl::Perm(p, over), c))
}

// What p's issue right is over: a whole grant or the grant variable.
#[cycle(grants)]
#[tactic(auto, unfolding(crate::specs::Inner::OnePass::num_issue, crate::specs::Inner::OnePass::onward))]
fn read_issue<'a>(
    c: Cursor<'a>,
    below: u8,
    v: Scope,
    p: Prin,
    t: &mut Numbering,
) -> Result<(Concl, Cursor<'a>), Refusal>
    ensures { Matches c.entry (λ s at. num_issue (num_grant below s) v p s at t.old) result t.new }
{
    let (tag, c) = c.tag(v)?;
    if tag == 1 {
        let any = GrantNo(GrantNo::VAR);
        return Ok((Concl::Perm(p, Res::Issue(any)), c));
    }
    let (no, c) = read_grant(c, below, t)?;
    Ok((Concl::Perm(p, Res::Issue(no)), c))
}
