// SPDX-License-Identifier: Apache-2.0
// SPDX-FileCopyrightText: Copyright the Vortex contributors
// Changed: ported from Rust to Rattle; kernels are codes of a bank in place of function pointers.

#![tactic(auto)]

ghost use Rattle.std.specs.Prelude.{◌≡◌, Bool, false, ℕ};

// Rules and kernels. So far it says which kernel codes exist. A code is a number, since banks are open.
pub trait Bank {
    ghost kernels: { Self → ℕ → Bool };

    fn has_kernel(&self, code: u8) -> bool
        ensures { result ≡ kernels self.now code };
}

// A bank with no kernels.
#[derive(Clone, Copy)]
pub struct EmptyBank;

impl Bank for EmptyBank {
    ghost kernels = { λ _ code. false };

    fn has_kernel(&self, _code: u8) -> bool {
        false
    }
}
