mod calling;
mod halting;
mod held;
mod identity;
mod idle;
mod planning;

pub use calling::{Begins, Calling, Held};
pub use halting::{Halted, Halting};
pub use held::{
    Announced, Announcing, Asked, Asking, Checked, Checking, Inquired, Inquiring, Readied, Readying,
};
pub use identity::Identity;
pub use idle::Idle;
pub use planning::{Planned, Planning};
