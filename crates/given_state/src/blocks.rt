//! The heap with the given blocks.

ghost use Rattle.std.specs.Prelude.{◌≡◌, IfErr, IfOk, OnOk, false};
ghost use Rattle.std.specs.List.{list_any};
ghost use Rattle.heap_model.specs.Heap.{empty_heap};
ghost use Rattle.trace_text.specs.Heap.{IsHeap};
ghost use Rattle.given_state.specs.Given.{IsFault, LacksPlace, LacksPlaceFirst, MayAllLie, MayLie, all_claimed, all_released, block_in, block_of_kind, given_heap, gives_epoch, with_claimed, with_epoch_given, with_released};
ghost use Rattle.given_state.specs.Giving.{AreLiveInTurn, IsLive};

use crate::fault::{Lack, StartFault};
use heap_core::{Heap, Kind, Obstacle};
use host_memory::Global;
use log_text::Given;

// The bounds of the block that a line gives.
fn bounds_given(given: Given) -> Option<(u64, u128)>
    ensures { result ≡ block_in given }
{
    match given {
        Given::Live { base, top } | Given::Waiting { base, top } | Given::Painted { base, top } => {
            Some((base, top))
        }
        _ => None,
    }
}

// The bounds of the block of this kind that a line gives.
fn bounds_of_kind(kind: Kind, given: Given) -> Option<(u64, u128)>
    ensures { result ≡ block_of_kind kind given }
{
    match (kind, given) {
        (Kind::Live, Given::Live { base, top })
        | (Kind::Waiting, Given::Waiting { base, top })
        | (Kind::Painted, Given::Painted { base, top }) => Some((base, top)),
        _ => None,
    }
}

// Hands out the block that a line gives.
fn claim_given(heap: &mut Heap, given: Given) -> Result<(), Obstacle>
    ensures may { OnOk result (MayLie heap.old (block_in given)) }
    ensures claimed { OnOk result (heap.new ≡ with_claimed heap.old (block_in given)) }
    ensures reason { IfErr result (LacksPlace heap.old (block_in given)) }
{
    let Some((base, top)) = bounds_given(given) else {
        return Ok(());
    };
    heap.claim(base, top)
}

// Hands out all blocks that lines give, or answers the first line whose block may not lie there.
fn claim_all(heap: &mut Heap, givens: &[(u32, Given)]) -> Result<(), (u32, Obstacle)>
    ensures may { OnOk result (MayAllLie heap.old givens.now) }
    ensures claimed { OnOk result (heap.new ≡ all_claimed heap.old givens.now) }
    ensures first { IfErr result (λ flaw. LacksPlaceFirst heap.old givens.now flaw.0 flaw.1) }
{
    for (line, given) in givens {
        if let Err(reason) = claim_given(heap, *given) {
            return Err((*line, reason));
        }
    }
    Ok(())
}

// Gives up the block of this kind that a line gives.
fn release_given(heap: &mut Heap, kind: Kind, given: Given)
    requires { IsLive heap.old (block_of_kind kind given) }
    ensures { heap.new ≡ with_released heap.old (block_of_kind kind given) }
{
    if let Some((base, top)) = bounds_of_kind(kind, given) {
        heap.release(base, top).unwrap();
    }
}

// Gives up all blocks of this kind that lines give.
fn release_all(heap: &mut Heap, kind: Kind, givens: &[(u32, Given)])
    requires { AreLiveInTurn kind heap.old givens.now }
    ensures { heap.new ≡ all_released kind heap.old givens.now }
{
    for (_, given) in givens {
        release_given(heap, kind, *given);
    }
}

// Whether a line says that an epoch is open.
fn is_epoch(given: Given) -> bool
    ensures { result ≡ gives_epoch given }
{
    matches!(given, Given::Painted { .. } | Given::Epoch)
}

// Whether some line says so.
fn are_epoch(givens: &[(u32, Given)]) -> bool
    ensures { result ≡ list_any (λ line. gives_epoch line.1) givens.now }
{
    givens.iter().any(|(_, given)| is_epoch(*given))
}

// Begins an epoch, if lines say that one is open.
fn open_epoch(heap: &mut Heap, givens: &[(u32, Given)])
    requires { heap.old.is_open ≡ false }
    ensures { heap.new ≡ with_epoch_given heap.old givens.now }
{
    if are_epoch(givens) {
        heap.begin_epoch();
    }
}

/// The heap that given lines tell of.
pub fn heap_given(
    alloc: Global,
    base: u64,
    pages: u32,
    givens: &[(u32, Given)],
) -> Result<Heap, StartFault>
    requires { IsHeap base pages }
    ensures heap { IfOk result (λ heap. heap ≡ given_heap base pages givens.now) }
    ensures may { OnOk result (MayAllLie (empty_heap base pages) givens.now) }
    ensures flaw { IfErr result (IsFault base pages givens.now) }
{
    let Ok(mut heap) = Heap::new(alloc, base, pages) else {
        return Err(StartFault::Memory);
    };
    if let Err((line, reason)) = claim_all(&mut heap, givens) {
        let lack = Lack::Block(reason);
        return Err(StartFault::Unsafe { line, lack });
    }
    release_all(&mut heap, Kind::Painted, givens);
    open_epoch(&mut heap, givens);
    release_all(&mut heap, Kind::Waiting, givens);
    Ok(heap)
}
