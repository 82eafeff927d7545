// The calls, by the byte that stands before a case's parts.

#[derive(Clone, Copy, PartialEq, Eq)]
pub enum Call {
    Read,
    Write,
    Plan,
    Sheet,
    Gate,
}

// A byte that stands for no call.
#[derive(Clone, Copy)]
pub struct UnknownCall(pub u8);

impl TryFrom<u8> for Call {
    type Error = UnknownCall;

    fn try_from(code: u8) -> Result<Self, UnknownCall> {
        match code {
            1 => Ok(Call::Read),
            2 => Ok(Call::Write),
            3 => Ok(Call::Plan),
            4 => Ok(Call::Sheet),
            5 => Ok(Call::Gate),
            _ => Err(UnknownCall(code)),
        }
    }
}
