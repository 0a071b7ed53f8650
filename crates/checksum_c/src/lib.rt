// The checksum as a C function.

#![tactic(auto)]

ghost use Rattle.std.specs.Prelude.{◌≡◌};
ghost use Rattle.checksum.specs.Lookup3.{lookup3};

use checksum::jenkins_lookup3;

// The same for C and Rust.
#[unsafe(no_mangle)]
pub extern "C" fn checksum_jenkins_lookup3(data: &[u8]) -> u32
    ensures { result ≡ lookup3 «data».now }
{
    jenkins_lookup3(data)
}
