//! Numbers that are drawn one after another.

ghost use Rattle.std.specs.Prelude.{◌≡◌, ◌<◌};
ghost use Rattle.ap_text_commands.specs.Generated.{drawn, next_draw};

/// The numbers of the linear congruential generator below 65537, from which draws are made.
#[derive(Drop)]
pub struct Draws {
    pub state: u32,
    ghost small: { state < 65537 },
}

impl Draws {
    ghost use Rattle.std.specs.Prelude.{◌≡◌, ◌%◌};

    /// Those of a seed.
    pub fn of(seed: u64) -> Draws
        ensures { result.state ≡ seed % 65537 }
    {
        let state = (seed % 65_537) as u32;
        Draws { state }
    }

    /// Draws one of so many numbers, from 0 on.
    pub fn draw(&mut self, many: u32) -> u32
        requires { 0 < many }
        ensures drawn { result ≡ drawn many self.old.state }
        ensures state { self.new.state ≡ next_draw self.old.state }
        ensures below { result < many }
    {
        self.state = (75 * self.state + 74) % 65_537;
        self.state / 16 % many
    }
}
