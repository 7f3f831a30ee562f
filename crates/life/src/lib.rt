// Lifetimes in seconds and the clock in nanoseconds. Only this crate converts.
#![tactic(auto)]

ghost use Rattle.std.specs.Prelude.{◌≡◌, ◌-◌, [], ◌∷◌, get_or};
ghost use Rattle.life.specs.Life.{reached, age, left_of, stored_seconds, life_set, seconds, nanoseconds, clock, low_word, high_word, life_of, words_of};

#[derive(Clone, Copy, Debug, PartialEq, Eq)]
pub struct Seconds(pub u32);

#[derive(Clone, Copy, Debug, PartialEq, Eq)]
pub struct Nanoseconds(pub u64);

// The lifetime that never ends.
pub const FOREVER: u32 = u32::MAX;

const SECOND: u64 = 1_000_000_000;

// The lifetimes of an address, from when they were last set, and when it was made and they were set.
#[derive(Clone, Copy, Debug, PartialEq, Eq)]
pub struct Life {
    pub valid: Seconds,
    pub preferred: Seconds,
    pub created: Nanoseconds,
    pub changed: Nanoseconds,
}

// The lifetimes that a request asks an address to have.
#[derive(Clone, Copy, Debug, PartialEq, Eq)]
pub struct Lifetimes {
    pub valid: Seconds,
    pub preferred: Seconds,
}

impl Lifetimes {
    pub const FOREVER: Lifetimes = Lifetimes {
        valid: Seconds(FOREVER),
        preferred: Seconds(FOREVER),
    };
}

// What is left of each lifetime.
#[derive(Clone, Copy, Debug, PartialEq, Eq)]
pub struct Left {
    pub preferred: Seconds,
    pub valid: Seconds,
}

// The clock of two words, low and high, and back.
impl From<[u32; 2]> for Nanoseconds {
    ghost from_gives = { λ words n. n ≡ nanoseconds (clock (get_or words 0 0) (get_or words 1 0)) };

    fn from(words: [u32; 2]) -> Nanoseconds {
        Nanoseconds(u64::from(words[0]) + u64::from(words[1]) * 4_294_967_296)
    }
}

impl From<Nanoseconds> for [u32; 2] {
    ghost from_gives = { λ n words. words ≡ low_word n.0 ∷ high_word n.0 ∷ [] };

    fn from(n: Nanoseconds) -> [u32; 2] {
        [(n.0 % 4_294_967_296) as u32, (n.0 / 4_294_967_296) as u32]
    }
}

// The lifetimes and moments as words, in the order in which a row holds them, and back.
impl From<[u32; 6]> for Life {
    ghost from_gives = { λ words life. life ≡ life_of words };

    fn from(words: [u32; 6]) -> Life {
        let [
            valid,
            preferred,
            created,
            created_high,
            changed,
            changed_high,
        ] = words;
        Life {
            valid: Seconds(valid),
            preferred: Seconds(preferred),
            created: Nanoseconds::from([created, created_high]),
            changed: Nanoseconds::from([changed, changed_high]),
        }
    }
}

impl From<Life> for [u32; 6] {
    ghost from_gives = { λ life words. words ≡ words_of life };

    fn from(life: Life) -> [u32; 6] {
        let [created, created_high] = <[u32; 2]>::from(life.created);
        let [changed, changed_high] = <[u32; 2]>::from(life.changed);
        [
            life.valid.0,
            life.preferred.0,
            created,
            created_high,
            changed,
            changed_high,
        ]
    }
}

impl Seconds {
    // The seconds to store where these are asked for: those that never end leave what is stored.
    fn or_stored(self, stored: Seconds) -> Seconds
        ensures { result ≡ seconds (stored_seconds self.0 stored.0) }
    {
        if self.0 == FOREVER { stored } else { self }
    }

    // It stops at 0, so it is no `Sub`.
    fn less(self, age: Seconds) -> Seconds
        ensures { result ≡ seconds (self.0 - age.0) }
    {
        Seconds(self.0.saturating_sub(age.0))
    }
}

impl Life {
    // It is given `lifetimes` at `now`.
    pub fn set(self, lifetimes: Lifetimes, now: Nanoseconds) -> Life
        ensures { result ≡ life_set lifetimes now.0 self }
    {
        Life {
            valid: lifetimes.valid.or_stored(self.valid),
            preferred: lifetimes.preferred.or_stored(self.preferred),
            changed: now,
            ..self
        }
    }

    // The whole seconds since its lifetimes were set.
    #[tactic(auto, unfolding(crate::specs::Life::age))]
    pub fn age(self, now: Nanoseconds) -> Seconds
        ensures { result ≡ seconds (age self.changed.0 now.0) }
    {
        let whole = now.0.saturating_sub(self.changed.0) / SECOND;
        Seconds(u32::try_from(whole).unwrap_or(u32::MAX))
    }

    // The seconds that each lifetime has left. None are taken from either where the preferred one never ends.
    #[tactic(auto, unfolding(crate::specs::Life::left_preferred, crate::specs::Life::left_valid))]
    pub fn left(self, now: Nanoseconds) -> Left
        ensures { result ≡ left_of self now.0 }
    {
        if self.preferred.0 == FOREVER {
            return Left {
                preferred: self.preferred,
                valid: self.valid,
            };
        }
        let age = self.age(now);
        let valid = if self.valid.0 == FOREVER {
            self.valid
        } else {
            self.valid.less(age)
        };
        Left {
            preferred: self.preferred.less(age),
            valid,
        }
    }

    // Whether it is as old as `lifetime`, `allowance` sooner counting. The sum of the clock and the allowance could pass 64 bits.
    #[tactic(auto, unfolding(crate::specs::Life::reached))]
    pub fn reached(self, lifetime: Seconds, now: Nanoseconds, allowance: Nanoseconds) -> bool
        ensures { result ≡ reached allowance.0 lifetime.0 self.changed.0 now.0 }
    {
        let clock = u128::from(now.0) + u128::from(allowance.0);
        let old = clock.saturating_sub(u128::from(self.changed.0));
        let due = u64::from(lifetime.0) * SECOND;
        (lifetime.0 != FOREVER) & (u128::from(due) <= old)
    }
}
