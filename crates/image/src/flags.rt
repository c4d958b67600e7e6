// The header's flag byte, set and tested with masks.
ghost use Rattle.std.specs.Prelude.{◌≡◌, not, ltb, eqb, if◌then◌else◌};
ghost use Rattle.std.specs.Int.Bits.{bit_and, bit_or};
ghost use Rattle.image.specs.Layout.{flag_byte, bit_held};

const SNAPSHOT_HELD: u8 = 1;

const STOP_SIGN_HELD: u8 = 2;

const METADATA_PRESENT: u8 = 4;

// The bits that no image has.
const NO_FLAG: u8 = 0xf8;

fn set(flags: u8, on: bool, mask: u8) -> u8
    ensures { result ≡ (if on then bit_or flags mask else flags) }
{
    if on {
        return flags | mask;
    }
    flags
}

fn test(flags: u8, mask: u8) -> bool
    ensures { result ≡ not (eqb (bit_and flags mask) 0) }
{
    flags & mask != 0
}

pub(crate) fn flags(snapshot: bool, stop: bool, metadata: bool) -> u8
    ensures { result ≡ flag_byte snapshot stop metadata }
{
    let none = set(0, snapshot, SNAPSHOT_HELD);
    let one = set(none, stop, STOP_SIGN_HELD);
    set(one, metadata, METADATA_PRESENT)
}

// One function for each bit, though they differ in the mask alone: a mask at each call is no plainer than a name.
pub(crate) fn snapshot_held(flags: u8) -> bool
    ensures { result ≡ bit_held 0 flags }
{
    test(flags, SNAPSHOT_HELD)
}

pub(crate) fn stop_sign_held(flags: u8) -> bool
    ensures { result ≡ bit_held 1 flags }
{
    test(flags, STOP_SIGN_HELD)
}

pub(crate) fn metadata_present(flags: u8) -> bool
    ensures { result ≡ bit_held 2 flags }
{
    test(flags, METADATA_PRESENT)
}

// "the rest zero"
pub(crate) fn flags_known(flags: u8) -> bool
    ensures { result ≡ ltb flags 8 }
{
    flags & NO_FLAG == 0
}
