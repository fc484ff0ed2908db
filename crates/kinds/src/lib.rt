// R14: what a call of each kind makes of the word, and its value.
#![tactic(auto)]

ghost use Rattle.std.specs.Prelude.{◌≡◌};
ghost use Rattle.kinds.specs.Kinds.{acted};

#[derive(Clone, Copy)]
pub struct Acted {
    pub word: u32,
    pub answer: u32,
}

pub fn act(kind: u8, word: u32, argument: u32) -> Acted
    ensures { result ≡ acted kind word argument }
{
    match kind {
        0 => Acted { word, answer: word },
        1 => Acted {
            word: argument,
            answer: 0,
        },
        2 => {
            let sum = word.wrapping_add(argument);
            Acted {
                word: sum,
                answer: sum,
            }
        }
        3 if argument <= word => Acted {
            word: word - argument,
            answer: 1,
        },
        _ => Acted { word, answer: 0 },
    }
}
