// How many entries have each mark, and where the first wrong one stands.
ghost use Rattle.std.specs.Prelude.{◌≡◌, ◌<◌, ◌^◌};
ghost use Rattle.marking.specs.Private.Counted.{counted, entries_in};

use printed::Mark;

// A line, counted from 1, and a member, counted from 0.
#[derive(Clone, Copy, PartialEq, Eq)]
pub struct Place {
    pub line: u64,
    pub member: u64,
}

#[derive(Clone, Copy, PartialEq, Eq)]
pub struct Marks {
    pub right: u64,
    pub close: u64,
    pub wrong: u64,
    pub first: Option<Place>,
}

impl Marks {
    // One entry more.
    #[tactic(auto, unfolding(crate::specs::Private::Counted::counted))]
    pub(crate) fn counted(self, mark: Mark, place: Place) -> Marks
        requires { entries_in self < 2 ^ 63 }
        ensures { result ≡ counted self mark place }
    {
        match mark {
            Mark::Right => Marks {
                right: self.right + 1,
                ..self
            },
            Mark::Close => Marks {
                close: self.close + 1,
                ..self
            },
            Mark::Wrong => Marks {
                wrong: self.wrong + 1,
                first: self.first.or(Some(place)),
                ..self
            },
        }
    }
}
