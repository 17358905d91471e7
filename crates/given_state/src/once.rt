//! Registers and granules that lines give more than once.

ghost use Rattle.std.specs.Prelude.{◌≡◌, IfErr, IfOk, MatchOption, None, OnOk};
ghost use Rattle.given_state.specs.Given.{AreGivenOnce, GivesAgain};
ghost use Rattle.given_state.specs.Giving.{IsFaultOfWords, IsNotedAs, place_number};

use crate::fault::{Lack, StartFault};
use host_memory::Global;
use log_text::Given;
use std::alloc::AllocError;
use std::collections::BTreeMap;

// The number of the register or the granule that a line gives.
fn number_of(given: Given) -> Option<u128>
    ensures { result ≡ place_number given }
{
    match given {
        Given::Register { register, .. } => Some(2 * u128::from(register) + 1),
        Given::Granule { address, .. } => Some(2 * u128::from(address)),
        _ => None,
    }
}

// What a line lacks that gives again what an earlier one gave, if it gives a word.
fn lack_again(given: Given, earlier: u32) -> Option<Lack>
    ensures { MatchOption result (place_number given ≡ None) (GivesAgain given earlier) }
{
    match given {
        Given::Register { register, .. } => Some(Lack::RegisterAgain {
            register,
            line: earlier,
        }),
        Given::Granule { address, .. } => Some(Lack::GranuleAgain {
            address,
            line: earlier,
        }),
        _ => None,
    }
}

// Notes the line for what it gives, or answers the line that was noted for that already.
fn note(
    noted: &mut BTreeMap<u128, u32, Global>,
    line: u32,
    given: Given,
) -> Result<Option<u32>, AllocError>
    ensures { IfOk result (IsNotedAs noted.old noted.new line (place_number given)) }
{
    let Some(number) = number_of(given) else {
        return Ok(None);
    };
    if let Some(earlier) = noted.get(&number) {
        return Ok(Some(*earlier));
    }
    noted.insert(number, line)?;
    Ok(None)
}

/// Refuses lines that give a register or a granule again.
pub fn check_once(alloc: Global, givens: &[(u32, Given)]) -> Result<(), StartFault>
    ensures once { OnOk result (AreGivenOnce givens.now) }
    ensures fault { IfErr result (IsFaultOfWords givens.now) }
{
    let mut noted: BTreeMap<u128, u32, Global> = BTreeMap::new(alloc);
    for (line, given) in givens {
        let Ok(found) = note(&mut noted, *line, *given) else {
            return Err(StartFault::Memory);
        };
        if let Some(earlier) = found {
            if let Some(lack) = lack_again(*given, earlier) {
                return Err(StartFault::Unsafe { line: *line, lack });
            }
        }
    }
    Ok(())
}
