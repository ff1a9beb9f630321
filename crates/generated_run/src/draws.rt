ghost use Rattle.std.specs.Prelude.{◌≡◌, ◌<◌};
ghost use Rattle.generated_run.specs.Generator.{next, drawn, after_draws, draws_from};

/// What the number is multiplied by at a draw, and what is then added, modulo 2^64.
const MULTIPLIER: u64 = 6_364_136_223_846_793_005;

const INCREMENT: u64 = 1_442_695_040_888_963_407;

/// What the draws of a run follow from.
#[derive(Clone, Copy, Debug, PartialEq, Eq)]
pub struct Generator {
    pub number: u64,
}

/// What a turn draws, in this order. Rows and columns are counted from 0.
#[derive(Clone, Copy, Debug, PartialEq, Eq)]
pub struct Draws {
    /// Which edit it is, of 16.
    pub kind: u32,
    /// The edit's row, of 40, and its column, of 8.
    pub row: u32,
    pub col: u32,
    /// The number that is entered, of 1,000.
    pub number: u32,
    /// The row, of 37, and the column, of 8, that a formula refers to, a copy begins at, or a sort.
    pub other_row: u32,
    pub other_col: u32,
    /// What follows the edit, of 4.
    pub delivery: u32,
}

impl Generator {
    /// One of the numbers below this one.
    #[tactic(auto, unfolding(crate::specs::Generator::drawn))]
    fn draw(&mut self, below: u32) -> u32
        requires { 0 < below }
        ensures number { self.new.number ≡ next self.old.number }
        ensures drawn { result ≡ drawn below self.new.number }
        ensures within { result < below }
    {
        self.number = self.number.wrapping_mul(MULTIPLIER).wrapping_add(INCREMENT);
        ((self.number >> 33) % u64::from(below)) as u32
    }

    /// The draws of the next turn.
    pub fn draws(&mut self) -> Draws
        ensures number { self.new.number ≡ after_draws 7 self.old.number }
        ensures draws { result ≡ draws_from self.old.number }
        ensures numbers { result.number < 1000 }
        ensures rows { result.other_row < 37 }
        ensures cols { result.other_col < 8 }
    {
        let kind = self.draw(16);
        let row = self.draw(40);
        let col = self.draw(8);
        let number = self.draw(1000);
        let other_row = self.draw(37);
        let other_col = self.draw(8);
        let delivery = self.draw(4);
        Draws {
            kind,
            row,
            col,
            number,
            other_row,
            other_col,
            delivery,
        }
    }
}
