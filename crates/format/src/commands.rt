// What a command is, by its byte.
ghost use Rattle.std.specs.Prelude.{◌≡◌, ◌&&◌};
ghost use Rattle.format.specs.Limits.{in_one_byte};
ghost use Rattle.format.specs.Machine.{is_node, is_close, operands, opens_in};

use crate::kind::Format;

// The operand bytes of a command.
pub fn operand_bytes(c: u8) -> usize
    ensures { result ≡ operands c }
{
    match c {
        Format::STEP | Format::GROUP => 1,
        Format::REPEAT => 4,
        Format::SHORT_REPEAT => 2,
        _ => 0,
    }
}

// Whether a command is a step or opens a group.
pub fn opens_node(c: u8) -> bool
    ensures { result ≡ is_node c }
{
    c == Format::STEP || c == Format::GROUP
}

// Whether a command closes a group or a repeat.
pub fn closes(c: u8) -> bool
    ensures { result ≡ is_close c }
{
    c == Format::GROUP_END || c == Format::REPEAT_END
}

// Whether a command opens a repeat: `20` in either family, `22` in the short one.
pub fn opens_repeat(short: bool, c: u8) -> bool
    ensures { result ≡ opens_in short c }
{
    c == Format::REPEAT || (short && c == Format::SHORT_REPEAT)
}

// Whether a `22` opens a repeat of this count and width: in the short family, where a byte each holds them.
pub fn opens_short(short: bool, count: usize, width: usize) -> bool
    ensures { result ≡ (short && in_one_byte count width) }
{
    short && count < Format::ONE_BYTE && width < Format::ONE_BYTE
}
