// Computed checks of two machines: that they are equivalent, or which text is the earliest that distinguishes them.
#![tactic(auto)]

ghost use Rattle.certificates.specs.Theorems.{CertificatesHold};

// What passes the checks is true.
pub fn certificates_hold() -> u8
    ensures { CertificatesHold }
{
    0
}
