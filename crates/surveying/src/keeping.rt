// What can be done with what is kept.
ghost use Rattle.std.specs.Prelude.{◌≡◌, ◌+◌, ◌<◌, ◌≤◌, ltb, [], ◌∷◌, ◌++◌, length, if◌then◌else◌};
ghost use Rattle.lists.specs.Lists.{listed};
ghost use Rattle.operations.specs.Rooms.{held};

use crate::desk::Kept;
use crate::finding::Finding;
use operations::room::Room;
use trying::order::BayOrder;

impl Kept {
    pub(crate) fn clear(&mut self)
        ensures findings { held self.new.findings ≡ [] }
        ensures orders { held self.new.orders ≡ [] }
    {
        self.findings.clear();
        self.orders.clear();
    }

    // Keeps what is found of a bay that has writes, and so of one that has operations.
    pub(crate) fn add(&mut self, bay: u8, found: &BayOrder)
        requires { (length (held self.old.findings) < 512) × (length (held self.old.orders) + length (listed found.now.places) ≤ 512) }
        ensures findings { held self.new.findings ≡ held self.old.findings ++ (if ltb 0 (length (listed found.now.places)) then (record { bay = bay; age = found.now.age; writes = length (listed found.now.places) }) ∷ [] else []) }
        ensures orders { held self.new.orders ≡ held self.old.orders ++ listed found.now.places }
    {
        if found.places.is_empty() {
            return;
        }
        let finding = Finding {
            bay,
            age: found.age,
            writes: found.places.len(),
        };
        self.findings.push(finding).unwrap();
        extend(&mut self.orders, found.places.as_slice());
    }
}

// Puts places behind those that are there.
fn extend(orders: &mut Room<usize>, places: &[usize])
    requires { length (held orders.old) + length places.now ≤ 512 }
    ensures { held orders.new ≡ held orders.old ++ places.now }
{
    for place in places {
        orders.push(*place).unwrap();
    }
}
