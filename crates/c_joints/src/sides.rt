// Where the outcomes of a part lead.
ghost use Rattle.std.specs.Prelude.{◌≡◌};
ghost use Rattle.c_joints.specs.Sides.{yes_side, no_side};

/// What joins the parts of a condition.
#[derive(Clone, Copy)]
pub enum Joint {
    /// `&&`.
    All,
    /// `||`.
    Any,
}

impl Joint {
    /// Where a part that is true leads, if the next part stands at `next` and the whole, where true, leads to `yes`.
    pub fn yes_side(&self, next: u32, yes: u32) -> u32
        ensures { result ≡ yes_side self.now next yes }
    {
        match self {
            Joint::All => next,
            Joint::Any => yes,
        }
    }

    /// Where a part that is false leads, if the next part stands at `next` and the whole, where false, leads to `no`.
    pub fn no_side(&self, next: u32, no: u32) -> u32
        ensures { result ≡ no_side self.now next no }
    {
        match self {
            Joint::All => no,
            Joint::Any => next,
        }
    }
}
