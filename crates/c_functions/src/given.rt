// The functions that a program has besides its own. They go by their names alone: a variable hides none of them.
ghost use Rattle.std.specs.Prelude.{◌≡◌};
ghost use Rattle.c_typing.specs.Profile.{choices, errors, given};
ghost use Rattle.c_typing.specs.Texts.{has};

/// The functions that report an error.
pub fn is_error(name: &[u8]) -> bool
    ensures { result ≡ has name.now errors }
{
    name == b"__VERIFIER_error".as_slice() || name == b"reach_error".as_slice()
}

/// The functions that give a choice.
pub fn is_choice(name: &[u8]) -> bool
    ensures { result ≡ has name.now choices }
{
    name == b"__VERIFIER_nondet_int".as_slice() || name == b"__VERIFIER_nondet_bool".as_slice()
}

/// The functions that a program has besides its own: choices, errors, `exit` and `abort`.
pub fn is_given(name: &[u8]) -> bool
    ensures { result ≡ has name.now given }
{
    let ends = name == b"exit".as_slice() || name == b"abort".as_slice();
    ends || is_choice(name) || is_error(name)
}
