use bully_account::Account;
use bully_base::OutOfMemory;
use std::alloc::Global;

/// What explains a verdict that isn't lawful.
pub trait Explainer {
    ghost use Rattle.std.specs.Prelude.{ℕ, List, IfOk, string_bytes};
    ghost use Rattle.bully_account.specs.Accounts.{AccountState};

    // What a text must say of an account, to explain what decided.
    ghost explains: { AccountState → List ℕ → Type 0 };

    /// The text that explains what an account came to. Refused where an allocation fails.
    fn explain(&self, alloc: Global, account: &Account) -> Result<String, OutOfMemory>
        ensures { IfOk result (λ text. explains account.now (string_bytes text)) };
}
