// The status byte that every reply begins with.
ghost use Rattle.std.specs.Prelude.{◌≡◌};
ghost use Rattle.reply.specs.Status.{state_numbers, previous_numbers, state_number, previous_number, status_means};
ghost use Rattle.reply.specs.Status.{status_of, status_in, status_byte, NamesState, NamesPrevious};

use answer::Refusal;

// What a machine made of the previous frame, with the number that a status byte has for it.
#[derive(Clone, Copy, Debug, PartialEq, Eq)]
pub enum Previous {
    Ok = 0,
    Reject = 1,
    Bad = 2,
    NotReady = 3,
}

// A machine's state, with the number that a status byte has for it.
#[derive(Clone, Copy, Debug, PartialEq, Eq)]
pub enum State {
    Error = 0,
    Ready = 1,
    Idle = 2,
    HaveId = 3,
    InUse = 5,
    Pause = 6,
    Finish = 7,
    Manual = 8,
    Offline = 9,
}

// A machine's state, what it made of the previous frame, and the toggle.
#[derive(Clone, Copy, Debug, PartialEq, Eq)]
pub struct Status {
    // Stays a flag: the toggle is a bit of its own in the byte, and says nothing of the parts beside it.
    toggle: bool,
    previous: Previous,
    state: State,
}

impl TryFrom<u8> for Previous {
    type Error = Refusal;

    ghost try_from_gives = { NamesPrevious };

    fn try_from(number: u8) -> Result<Previous, Refusal> {
        match number {
            0 => Ok(Previous::Ok),
            1 => Ok(Previous::Reject),
            2 => Ok(Previous::Bad),
            3 => Ok(Previous::NotReady),
            _ => Err(Refusal::BadStatus),
        }
    }
}

impl TryFrom<u8> for State {
    type Error = Refusal;

    ghost try_from_gives = { NamesState };

    fn try_from(number: u8) -> Result<State, Refusal> {
        match number {
            0 => Ok(State::Error),
            1 => Ok(State::Ready),
            2 => Ok(State::Idle),
            3 => Ok(State::HaveId),
            5 => Ok(State::InUse),
            6 => Ok(State::Pause),
            7 => Ok(State::Finish),
            8 => Ok(State::Manual),
            9 => Ok(State::Offline),
            _ => Err(Refusal::BadStatus),
        }
    }
}

impl Status {
    // Results of the previous frame.
    pub const OK: u8 = Previous::Ok as u8;

    pub const REJECT: u8 = Previous::Reject as u8;

    pub const BAD: u8 = Previous::Bad as u8;

    pub const NOT_READY: u8 = Previous::NotReady as u8;

    // States.
    pub const ERROR: u8 = State::Error as u8;

    pub const READY: u8 = State::Ready as u8;

    pub const IDLE: u8 = State::Idle as u8;

    pub const HAVE_ID: u8 = State::HaveId as u8;

    pub const IN_USE: u8 = State::InUse as u8;

    pub const PAUSE: u8 = State::Pause as u8;

    pub const FINISH: u8 = State::Finish as u8;

    pub const MANUAL: u8 = State::Manual as u8;

    pub const OFFLINE: u8 = State::Offline as u8;

    // Every state, for callers that go over them.
    pub fn states() -> [u8; 9]
        ensures { result ≡ state_numbers }
    {
        [
            Self::ERROR,
            Self::READY,
            Self::IDLE,
            Self::HAVE_ID,
            Self::IN_USE,
            Self::PAUSE,
            Self::FINISH,
            Self::MANUAL,
            Self::OFFLINE,
        ]
    }

    // Every result of the previous frame.
    pub fn results() -> [u8; 4]
        ensures { result ≡ previous_numbers }
    {
        [Self::OK, Self::REJECT, Self::BAD, Self::NOT_READY]
    }

    // Makes a status of its parts. Refusal 8 where `previous` or `state` is none of the constants above.
    pub fn of(toggle: bool, previous: u8, state: u8) -> Result<Status, Refusal>
        ensures { status_means result ≡ status_of toggle previous state }
    {
        let previous = Previous::try_from(previous)?;
        let state = State::try_from(state)?;
        Ok(Status {
            toggle,
            previous,
            state,
        })
    }

    // Refusal 8 for a byte with bit 6 set, or with a state that is none.
    pub fn from_byte(b: u8) -> Result<Status, Refusal>
        ensures { status_means result ≡ status_in b }
    {
        if b / 64 % 2 != 0 {
            return Err(Refusal::BadStatus);
        }
        Self::of(128 <= b, b / 16 % 4, b % 16)
    }

    pub fn to_byte(self) -> u8
        ensures { result ≡ status_byte self.toggle (previous_number self.previous) (state_number self.state) }
    {
        let low = self.previous() * 16 + self.state();
        if self.toggle { 128 + low } else { low }
    }

    pub fn toggle(self) -> bool
        ensures { result ≡ self.toggle }
    {
        self.toggle
    }

    // The result of the previous frame: `OK`, `REJECT`, `BAD` or `NOT_READY`.
    pub fn previous(self) -> u8
        ensures { result ≡ previous_number self.previous }
    {
        self.previous as u8
    }

    // The machine's state, one of the constants above.
    pub fn state(self) -> u8
        ensures { result ≡ state_number self.state }
    {
        self.state as u8
    }
}
