// What can begin each kind of thing.
ghost use Rattle.std.specs.Prelude.{◌≡◌};
ghost use Rattle.c_grammar.specs.words.Sets as sets;
ghost use Rattle.c_grammar.specs.words.Parted as parted;

use c_grammar::Sign;

/// A simple statement can begin with this.
pub fn begins_simple(sign: Sign) -> bool
    ensures { result ≡ sets.begins_simple sign }
{
    match sign {
        Sign::Id | Sign::Free => true,
        _ => false,
    }
}

/// An operand can begin with this.
pub fn begins_operand(sign: Sign) -> bool
    ensures { result ≡ sets.begins_operand sign }
{
    match sign {
        Sign::Id | Sign::Number | Sign::Null | Sign::True | Sign::False => true,
        _ => false,
    }
}

/// A condition can begin with this.
pub fn begins_cond(sign: Sign) -> bool
    ensures { result ≡ sets.begins_cond sign }
{
    match sign {
        Sign::Id | Sign::Number | Sign::Null | Sign::True | Sign::False | Sign::Not | Sign::Open =>
            true,
        _ => false,
    }
}

/// A declaration, a field or a parameter can begin with this.
pub fn begins_declare(sign: Sign) -> bool
    ensures { result ≡ sets.begins_declare sign }
{
    match sign {
        Sign::Struct | Sign::Enum | Sign::Int => true,
        _ => false,
    }
}

/// A statement that is a level can begin with this.
pub fn begins_level(sign: Sign) -> bool
    ensures { result ≡ parted.begins_level sign }
{
    match sign {
        Sign::OpenBrace | Sign::If | Sign::While | Sign::Do | Sign::For => true,
        _ => false,
    }
}

/// A part of a block can begin with this.
pub fn begins_part(sign: Sign) -> bool
    ensures { result ≡ parted.begins_part sign }
{
    match sign {
        Sign::Struct
        | Sign::Enum
        | Sign::Int
        | Sign::OpenBrace
        | Sign::If
        | Sign::While
        | Sign::Do
        | Sign::For
        | Sign::Semicolon
        | Sign::Id
        | Sign::Free
        | Sign::Return
        | Sign::Break
        | Sign::Continue
        | Sign::Assert => true,
        _ => false,
    }
}

/// The parameters of a function can begin with this.
pub fn begins_params(sign: Sign) -> bool
    ensures { result ≡ parted.begins_params sign }
{
    match sign {
        Sign::Void | Sign::Struct | Sign::Int | Sign::Enum => true,
        _ => false,
    }
}

/// Data can begin with this.
pub fn begins_data(sign: Sign) -> bool
    ensures { result ≡ parted.begins_data sign }
{
    match sign {
        Sign::Int | Sign::Enum => true,
        _ => false,
    }
}

/// What stands after a head can begin with this.
pub fn begins_ending(sign: Sign) -> bool
    ensures { result ≡ parted.begins_ending sign }
{
    match sign {
        Sign::Semicolon | Sign::OpenBrace => true,
        _ => false,
    }
}

/// An item can begin with this.
pub fn begins_item(sign: Sign) -> bool
    ensures { result ≡ parted.begins_item sign }
{
    match sign {
        Sign::Extern | Sign::Void | Sign::Int | Sign::Enum | Sign::Struct => true,
        _ => false,
    }
}
