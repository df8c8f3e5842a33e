// The needs of a command group (SYCL 2020, "SYCL command groups and execution order").

ghost use Rattle.std.specs.Prelude.{◌≡◌, IfOk};
ghost use Rattle.sy_meaning.specs.Making.{mode_of, is_same_run, joint, with_need, need_index};

use std::alloc::{AllocError, Global};
use sy_access::{Mode, Need};

fn mode_of(reads: bool, writes: bool) -> Mode
    ensures { result ≡ mode_of reads writes }
{
    match (reads, writes) {
        (true, true) => Mode::ReadWrite,
        (true, false) => Mode::Read,
        (false, true) => Mode::Write,
        (false, false) => Mode::Read,
    }
}

fn is_same_run(one: &Need, other: &Need) -> bool
    ensures { result ≡ is_same_run one.now other.now }
{
    one.buffer == other.buffer && (one.from == other.from && one.to == other.to)
}

/// Two needs of the same elements as one.
pub fn joint(one: &Need, other: &Need) -> Need
    ensures { result ≡ joint one.now other.now }
{
    Need {
        buffer: one.buffer,
        mode: mode_of(
            one.mode.reads() || other.mode.reads(),
            one.mode.writes() || other.mode.writes(),
        ),
        no_init: one.no_init && other.no_init,
        from: one.from,
        to: one.to,
    }
}

/// The needs with one more, which is joined to the first of the same elements.
pub fn with_need(alloc: Global, need: &Need, needs: &[Need]) -> Result<Vec<Need>, AllocError>
    ensures { IfOk result (λ made. made.items ≡ with_need need.now needs.now) }
{
    let mut made = Vec::new(alloc);
    let mut rest = needs;
    while let [first, others @ ..] = rest {
        if is_same_run(first, need) {
            made.push(joint(first, need))?;
            made.extend_from_slice(others)?;
            return Ok(made);
        }
        made.push(*first)?;
        rest = others;
    }
    made.push(*need)?;
    Ok(made)
}

/// The index of the first need of the same elements; how many needs there are where none is.
#[tactic(auto, using(crate::proofs::NeedLemmas::need_here))]
pub fn need_index(need: &Need, needs: &[Need]) -> usize
    ensures { result ≡ need_index need.now needs.now }
{
    for (k, one) in needs.iter().enumerate() {
        if is_same_run(one, need) {
            return k;
        }
    }
    needs.len()
}
