// The flags of a timer.
ghost use Rattle.std.specs.Prelude.{◌≡◌};

/// The interrupt flags of a timer, or a choice of them to be cleared (ATmega128 datasheet, "TIFR" and "ETIFR"). A
/// timer of eight bits has `tov` and `ocf_a` alone.
#[derive(Clone, Copy)]
pub struct TimerFlags {
    /// TOV: the counter passed its maximum.
    pub tov: bool,
    /// OCFA, or OCF of a timer of eight bits: the counter met the first compare value.
    pub ocf_a: bool,
    /// OCFB: the counter met the second compare value.
    pub ocf_b: bool,
    /// OCFC: the counter met the third compare value.
    pub ocf_c: bool,
    /// ICF: the counter met ICR where ICR is its top.
    pub icf: bool,
}

impl TimerFlags {
    ghost use Rattle.avr_timers.specs.Flags.{any_flag, flags_or, flags_without};

    /// No flag.
    pub const NONE: TimerFlags = TimerFlags {
        tov: false,
        ocf_a: false,
        ocf_b: false,
        ocf_c: false,
        icf: false,
    };

    /// Whether one is set.
    #[inline(always)]
    pub fn any(self) -> bool
        ensures { result ≡ any_flag self }
    {
        self.tov || self.ocf_a || self.ocf_b || self.ocf_c || self.icf
    }

    /// The flags that are set here or in `more`. Most clocks of a counter set none.
    #[inline(always)]
    #[tactic(auto, using(crate::proofs::Calm::same_or))]
    pub fn or(self, more: TimerFlags) -> TimerFlags
        ensures { result ≡ flags_or self more }
    {
        if !more.any() {
            return self;
        }
        TimerFlags {
            tov: self.tov || more.tov,
            ocf_a: self.ocf_a || more.ocf_a,
            ocf_b: self.ocf_b || more.ocf_b,
            ocf_c: self.ocf_c || more.ocf_c,
            icf: self.icf || more.icf,
        }
    }

    /// The flags that are set here and not in `cleared`.
    pub fn without(self, cleared: TimerFlags) -> TimerFlags
        ensures { result ≡ flags_without self cleared }
    {
        TimerFlags {
            tov: self.tov && !cleared.tov,
            ocf_a: self.ocf_a && !cleared.ocf_a,
            ocf_b: self.ocf_b && !cleared.ocf_b,
            ocf_c: self.ocf_c && !cleared.ocf_c,
            icf: self.icf && !cleared.icf,
        }
    }
}
