// The readers of a grant and of a conclusion in a record: read as written, which finds its faults and its end; then brought to its
// form and read again, which numbers it.
#![tactic(auto)]

ghost use Rattle.std.specs.Prelude.{◌≡◌};
ghost use Rattle.grants.specs.Inner.OnePass.{Matches};
ghost use Rattle.canonread.specs.Inner.Again.{holds_grant, num_form, num_concl_form};

use canonwrite::sorting;
use frames::ranges::{Cursor, Scope};
use rows::Numbering;
use sorts::{Concl, GrantNo, Refusal, Row};

// Whether the conclusion that s opens with holds a grant, by its bytes, which may be faulty yet: they are no kind that was read. The writing
// compares the same two at a place; a function for both would be longer than either.
#[tactic(auto, unfolding(crate::specs::Inner::Again::holds_grant))]
fn holds_grant(s: &[u8]) -> bool
    ensures { result ≡ holds_grant s.now }
{
    sorting::byte_at(s, 0) == 1 && sorting::byte_at(s, 2) == 0
}

// The next two differ in each step: one function for both would take the steps as closures, and be longer. Each cuts what follows the cursor,
// and makes one at the form's first byte: a method for either would be longer than its two uses.

// The grant from the cursor on.
#[tactic(auto, unfolding(crate::specs::Inner::Again::num_form, grants::specs::Inner::OnePass::onward))]
pub fn read_grant<'a>(c: Cursor<'a>, t: &mut Numbering) -> Result<(GrantNo, Cursor<'a>), Refusal>
    ensures { Matches c.entry (λ s at. num_form s at t.old) result t.new }
{
    let mut as_written = *t;
    let (_, after) = grants::read_grant(c, Row::DEPTHS, &mut as_written)?;
    let rest = &c.bytes[c.at.min(c.bytes.len())..];
    let mut form = [0u8; canonwrite::MOST_GRANT];
    canonwrite::write_grant(rest, &mut form);
    let formed = Cursor {
        bytes: &form,
        at: 0,
    };
    let (no, _) = grants::read_grant(formed, Row::DEPTHS, t)?;
    Ok((no, after))
}

// The conclusion from the cursor on, of a grant that declares v. One that holds no grant is its own form.
#[tactic(auto, using(crate::proofs::Whole::told), unfolding(crate::specs::Inner::Again::num_concl_form, grants::specs::Inner::OnePass::onward))]
pub fn read_concl<'a>(
    c: Cursor<'a>,
    v: Scope,
    t: &mut Numbering,
) -> Result<(Concl, Cursor<'a>), Refusal>
    ensures { Matches c.entry (λ s at. num_concl_form v s at t.old) result t.new }
{
    let rest = &c.bytes[c.at.min(c.bytes.len())..];
    if !holds_grant(rest) {
        return grants::read_concl(c, Row::DEPTHS, v, t);
    }
    let mut as_written = *t;
    let (_, after) = grants::read_concl(c, Row::DEPTHS, v, &mut as_written)?;
    let mut form = [0u8; canonwrite::MOST_CONCL];
    canonwrite::write_concl(rest, &mut form);
    let formed = Cursor {
        bytes: &form,
        at: 0,
    };
    let (what, _) = grants::read_concl(formed, Row::DEPTHS, v, t)?;
    Ok((what, after))
}
