// What the rules of a start say of its slot and its list.
#![tactic(auto)]

ghost use Rattle.std.specs.Prelude.{◌≡◌, length};
ghost use Rattle.answers.specs.Order.{decide, refuses, passes};
ghost use Rattle.record_layout.specs.Declarations.{declarations_of};
ghost use Rattle.rules.specs.Refusing.{start_rules, declaration_rules};

use answers::{Refusal, Verdict};
use counters::{Size, SlotNo};
use record_bytes::lists::Declarations;

// R22: of each declaration in turn, 2 and 3.
fn declarations(size: Size, list: &[u8]) -> Verdict
    ensures { result ≡ decide (declaration_rules size 0 (declarations_of list.now)) refuses passes }
{
    let mut least: u8 = 0;
    for declaration in Declarations(list) {
        let object = declaration.object.0;
        if size.objects <= object {
            return Err(Refusal::BadObject);
        }
        if object < least {
            return Err(Refusal::BadList);
        }
        least = object + 1;
    }
    Ok(())
}

// R21: 1, 4, 3 by the list's length, then declaration by declaration.
pub fn verdict(size: Size, slot: SlotNo, live: bool, list: &[u8]) -> Verdict
    ensures { result ≡ decide (start_rules size slot.0 live (length list.now) (declarations_of list.now)) refuses passes }
{
    if size.slots <= slot.0 {
        return Err(Refusal::BadSlot);
    }
    if live {
        return Err(Refusal::Busy);
    }
    if list.is_empty() || list.len() % 2 == 1 || 2 * (size.objects as usize) < list.len() {
        return Err(Refusal::BadList);
    }
    declarations(size, list)
}
