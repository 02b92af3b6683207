//! What may be done with rows.

ghost use Rattle.std.specs.Prelude.{◌≡◌};
ghost use Rattle.calculus.specs.Rights.{has_right, is_retrieve, right_number};
ghost use Rattle.view_expand.specs.Asking.{right_of};

/// What may be done with rows.
#[derive(Clone, Copy)]
pub enum Right {
    /// To read them.
    Retrieve,
    /// To put new ones.
    Append,
    /// To put others in their place.
    Replace,
    /// To take them away.
    Delete,
}

impl Right {
    /// Its number in the sum that a permit has.
    fn number(self) -> u8
        ensures { result ≡ right_number (right_of self) }
    {
        match self {
            Right::Retrieve => 1,
            Right::Append => 2,
            Right::Replace => 4,
            Right::Delete => 8,
        }
    }

    /// Whether this sum has it.
    pub(crate) fn is_in(self, ops: u8) -> bool
        ensures { result ≡ has_right ops (right_of self) }
    {
        ops & self.number() != 0
    }

    /// Whether it is to read rows.
    pub(crate) fn is_retrieve(self) -> bool
        ensures { result ≡ is_retrieve (right_of self) }
    {
        match self {
            Right::Retrieve => true,
            _ => false,
        }
    }
}
