//! Arithmetic that the detector's proofs share: identities of polynomials over whole numbers, and sizes of machine numbers.

#![tactic(auto)]

ghost use Rattle.arith.specs.Ring.{Identities};

/// Two expressions whose difference cancels to nothing have one value, whatever their variables are.
pub fn identities_stand()
    ensures { Identities }
{}
