//! What a field of a record may say.

ghost use Rattle.std.specs.Prelude.{◌≡◌};
ghost use Rattle.qc_stow.specs.Fields.{length_text};

/// The length in feet of the containers at a bay.
pub(crate) fn length_text(bay: u16) -> &'static [u8]
    ensures { result.now ≡ length_text bay }
{
    if bay % 2 == 0 {
        b"40".as_slice()
    } else {
        b"20".as_slice()
    }
}
