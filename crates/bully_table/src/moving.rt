ghost use Rattle.std.specs.Prelude.{◌≡◌, ◌≤◌, length};
ghost use Rattle.bully_base.specs.declared.TheConstants.{PARTITIONS_MAX};
ghost use Rattle.bully_table.specs.Planning.{moves};

use bully_base::Node;

/// At how many places the owners differ.
pub fn count_moves(old: &[Node], new: &[Node]) -> u16
    requires lengths { length old.now ≡ length new.now }
    requires within { length new.now ≤ PARTITIONS_MAX }
    ensures { result ≡ moves old.now new.now }
{
    let mut count = 0;
    for (place, owner) in new.iter().enumerate() {
        if old[place] != *owner {
            count += 1;
        }
    }
    count
}
