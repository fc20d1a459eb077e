//! The words of `page`, and how many steps it records.

ghost use Rattle.std.specs.Prelude.{◌<◌, ◌≤◌, IfOk, length};

use mx_inputs::{Named, Ordered, OwnOption, Unread};
use mx_words::{Order, WordsFault};
use std::alloc::Global;

/// How many steps are recorded at most, where `--steps` does not say it, and where it does.
const FEW_STEPS: u64 = 100_000;

const MOST_STEPS: u64 = 1_000_000;

/// The number of steps, by the one that was read.
fn steps_of(named: &Named, steps: u64) -> Result<u64, Unread> {
    match named.steps {
        None => Ok(FEW_STEPS),
        Some(place) => {
            if steps > MOST_STEPS {
                return Err(Unread::Fault(WordsFault {
                    kind: 5,
                    word: place,
                }));
            }
            Ok(steps)
        }
    }
}

/// What the words after `page` order.
pub fn read_order(alloc: Global, words: &[String]) -> Result<Ordered, Unread>
    ensures { IfOk result (λ o. (o.order.file < length o.named.words.items) × (o.order.rest ≤ length o.named.words.items)) }
{
    let own = OwnOption {
        name: "--json",
        has_value: false,
    };
    let Ordered { named, order } = mx_inputs::read_order(alloc, own, words)?;
    let steps = steps_of(&named, order.steps)?;
    Ok(Ordered {
        named,
        order: Order { steps, ..order },
    })
}
