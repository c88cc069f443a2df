// The radio, transfer by transfer.
ghost use Rattle.std.specs.Prelude.{◌≡◌, ◌≤◌, ◌+◌, ℕ};
ghost use Rattle.air_base.specs.Bounds.{LAST_END};
ghost use Rattle.air_base.specs.declared.bounds.TheConstants.{LONGEST_BYTE};

use air_base::Heard;

/// What the byte of the next transfer is to a radio.
#[derive(Clone, Copy)]
pub enum RadioState {
    /// A command: 1 to send the byte that follows, 2 to sample the air, any other for nothing.
    Idle,
    /// The byte to send.
    ToSend,
    /// Nothing: what was heard is still to be told, by `answer`.
    ToSample,
    /// Nothing: the status of what was heard is answered.
    Status {
        /// What was heard.
        heard: Heard,
    },
    /// Nothing: the byte that was heard is answered.
    Byte {
        /// What was heard.
        heard: Heard,
    },
    /// Nothing: the age of the byte that was heard is answered.
    Age {
        /// What was heard.
        heard: Heard,
    },
}

/// What a transfer of one byte comes to.
#[derive(Clone, Copy)]
pub enum TransferOutcome {
    /// It is answered by this byte.
    Answer(u8),
    /// A byte is sent over the air.
    Send {
        /// What is sent.
        byte: u8,
        /// What answers the transfer.
        miso: u8,
    },
    /// The air is sampled; `answer` is to be told what is heard.
    Ask,
}

/// The radio of a node.
#[derive(Clone, Copy)]
pub struct Radio {
    /// For how long a byte is on the air, in cycles.
    pub byte_time: u16,
    /// The first cycle in which it may send again.
    pub free: u64,
    /// What the byte of the next transfer is to it.
    pub state: RadioState,
}

impl Radio {
    ghost use Rattle.serial_ports.specs.Radio.{idle_transfer, in_state, radio_answered, radio_transfer, reset_radio, selected_transfer, send_transfer};
    ghost use Rattle.serial_ports.specs.declared.radio.TransferOutcome.TheVariants.{Answer, Send};

    /// A radio after reset, idle, whose bytes are on the air for `byte_time` cycles, at most 4,096.
    pub fn new(byte_time: u64) -> Radio
        requires { byte_time ≤ LONGEST_BYTE }
        ensures { result ≡ reset_radio byte_time }
    {
        Radio {
            byte_time: byte_time as u16,
            free: 0,
            state: RadioState::Idle,
        }
    }

    // Answers a transfer, and enters the state that says what the byte of the next one is.
    fn enter(&mut self, state: RadioState, answer: u8) -> TransferOutcome
        ensures answered { result ≡ Answer answer }
        ensures turned { self.new ≡ in_state state self.old }
    {
        self.state = state;
        TransferOutcome::Answer(answer)
    }

    // What a command comes to.
    fn command(&mut self, mosi: u8) -> TransferOutcome
        ensures { (result, self.new) ≡ idle_transfer mosi self.old }
    {
        match mosi {
            1 => self.enter(RadioState::ToSend, 0),
            2 => {
                self.state = RadioState::ToSample;
                TransferOutcome::Ask
            }
            _ => self.enter(RadioState::Idle, 0),
        }
    }

    // What a byte to send comes to, in the cycle `cycle`.
    fn send(&mut self, cycle: u64, byte: u8) -> TransferOutcome
        requires { cycle ≤ LAST_END }
        ensures { (result, self.new) ≡ send_transfer cycle byte self.old }
    {
        if cycle < self.free {
            return self.enter(RadioState::Idle, 1);
        }
        self.free = cycle + u64::from(self.byte_time);
        self.state = RadioState::Idle;
        TransferOutcome::Send { byte, miso: 0 }
    }

    // What a byte comes to for a radio that is selected.
    fn selected(&mut self, cycle: u64, mosi: u8) -> TransferOutcome
        requires { cycle ≤ LAST_END }
        ensures { (result, self.new) ≡ selected_transfer cycle mosi self.old.state self.old }
    {
        match self.state {
            RadioState::Idle => self.command(mosi),
            RadioState::ToSend => self.send(cycle, mosi),
            RadioState::ToSample => self.enter(RadioState::Idle, 0),
            RadioState::Status { heard } => self.enter(RadioState::Byte { heard }, heard.status),
            RadioState::Byte { heard } => self.enter(RadioState::Age { heard }, heard.byte),
            RadioState::Age { heard } => self.enter(RadioState::Idle, heard.age),
        }
    }

    /// A transfer that ends in the cycle `cycle` and brings the byte `mosi`. One that ends while the radio is not
    /// selected is answered 0xFF and makes it idle. A byte is sent only where the one before it is over, and keeps the
    /// radio busy for the byte time.
    #[tactic(auto, unfolding(crate::specs::Radio::radio_transfer))]
    pub fn transfer(&mut self, cycle: u64, selected: bool, mosi: u8) -> TransferOutcome
        requires { cycle ≤ LAST_END }
        ensures moved { (result, self.new) ≡ radio_transfer cycle selected mosi self.old }
        ensures gap { self.new.byte_time ≡ self.old.byte_time }
        ensures busy { self.old.free ≤ self.new.free }
        ensures sends { (x m : ℕ) → result ≡ Send x m → (self.old.free ≤ cycle) × (cycle + self.old.byte_time ≡ self.new.free) }
    {
        if selected {
            self.selected(cycle, mosi)
        } else {
            self.enter(RadioState::Idle, 0xFF)
        }
    }

    /// Tells the radio what is heard in the cycle of its sample: the next three transfers answer it. The result is what
    /// the transfer that sampled is answered.
    pub fn answer(&mut self, h: Heard) -> u8
        ensures byte { result ≡ 0 }
        ensures heard { self.new ≡ radio_answered h self.old }
    {
        self.state = RadioState::Status { heard: h };
        0
    }
}
