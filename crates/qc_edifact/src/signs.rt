//! Service signs, and a text cut at one of them.

ghost use Rattle.std.specs.Prelude.{◌≡◌, ◌≤◌, ◌<◌, length, not, ◌&&◌};
ghost use Rattle.qc_edifact.specs.Signs.{are_signs, is_apart, is_release, is_sign, release_told, signs_told};
ghost use Rattle.qc_edifact.specs.Cuts.{CutsOff, ends_piece, piece_of};

/// The signs that cut a text. A byte behind the release sign counts as itself and cuts nothing.
#[derive(Clone, Copy)]
pub(crate) struct Signs {
    pub(crate) component: u8,
    pub(crate) element: u8,
    pub(crate) release: Option<u8>,
    pub(crate) end: u8,
}

/// The signs of a text that tells none.
pub(crate) const USUAL: Signs = Signs {
    component: b':',
    element: b'+',
    release: Some(b'?'),
    end: b'\'',
};

/// Whether the byte may be a service sign: a visible one that is no letter and no digit.
fn is_sign(b: u8) -> bool
    ensures { result ≡ is_sign b }
{
    b >= 0x21 && b <= 0x7E && !b.is_ascii_alphanumeric()
}

/// The release sign that a byte tells: a blank tells that there is none.
fn release_told(b: u8) -> Option<u8>
    ensures { result ≡ release_told b }
{
    if b == b' ' { None } else { Some(b) }
}

/// Whether the byte, which is taken along or not, is such a sign and cuts.
fn ends_piece(sign: u8, taken: bool, b: u8) -> bool
    ensures { result ≡ ends_piece sign taken b }
{
    !taken && b == sign
}

impl Signs {
    /// The signs that the six bytes behind `UNA` tell, if they can serve.
    pub(crate) fn told(bytes: &[u8]) -> Option<Signs>
        requires { 6 ≤ length bytes.now }
        ensures { result ≡ signs_told bytes.now }
    {
        let signs = Signs {
            component: bytes[0],
            element: bytes[1],
            release: release_told(bytes[3]),
            end: bytes[5],
        };
        if signs.can_serve() { Some(signs) } else { None }
    }

    /// Whether all are signs and no two are the same.
    fn can_serve(&self) -> bool
        ensures { result ≡ are_signs self.now }
    {
        is_sign(self.component)
            && is_sign(self.element)
            && is_sign(self.end)
            && self.component != self.element
            && self.component != self.end
            && self.element != self.end
            && self.can_release()
    }

    /// Whether the release sign is a sign unlike the others, or there is none.
    fn can_release(&self) -> bool
        ensures { result ≡ is_apart self.now self.now.release }
    {
        match self.release {
            Some(b) => { is_sign(b) && b != self.component && b != self.element && b != self.end }
            None => true,
        }
    }

    /// Whether the byte is the release sign.
    pub(crate) fn is_release(&self, b: u8) -> bool
        ensures { result ≡ is_release self.now b }
    {
        match self.release {
            Some(sign) => b == sign,
            None => false,
        }
    }

    /// Whether the byte takes the next one along.
    fn takes(&self, taken: bool, b: u8) -> bool
        ensures { result ≡ (not taken && is_release self.now b) }
    {
        !taken && self.is_release(b)
    }

    /// What stands ahead of the first such sign that isn't taken along, and what stands behind it.
    pub(crate) fn split<'a>(&self, sign: u8, text: &'a [u8]) -> Option<(&'a [u8], &'a [u8])>
        ensures { CutsOff self.now sign text.now result }
    {
        let mut taken = false;
        for (at, byte) in text.iter().enumerate() {
            if ends_piece(sign, taken, *byte) {
                let (piece, _) = text.split_at(at);
                let (_, rest) = text.split_at(at + 1);
                return Some((piece, rest));
            }
            taken = self.takes(taken, *byte);
        }
        None
    }

    /// The piece of this number, from 0, of a text that is cut at such signs; empty where there is
    /// none.
    pub(crate) fn piece<'a>(&self, sign: u8, text: &'a [u8], number: u16) -> &'a [u8]
        ensures { result.now ≡ piece_of self.now sign text.now number }
    {
        let mut rest = text;
        let mut left = number;
        while left > 0 {
            let Some((_, behind)) = self.split(sign, rest) else {
                return &[];
            };
            rest = behind;
            left -= 1;
        }
        match self.split(sign, rest) {
            Some((piece, _)) => piece,
            None => rest,
        }
    }
}
