// The rows of a block's result, which are joined as those of W'j and SS2 are, by `xor_of_two`.
ghost use Rattle.std.specs.Prelude.{◌≡◌, ◌<◌};
ghost use Rattle.block.specs.StepForms.{result_form};
ghost use Rattle.block.specs.Wires.{eight_from};
ghost use Rattle.forms.specs.Terms.{Fit};

use crate::placed::Block;
use forms::form::Form;
use forms::word_form::xor_of_two;

impl Block {
    // Line l of result word k, A to H xor the words that the block began with.
    #[tactic(auto, unfolding(crate::specs::StepForms::result_form, crate::specs::Wires::stands))]
    pub fn result_form(self, k: u64, l: u64) -> Form
        requires { (k < 8) × (l < 32) }
        ensures { (result ≡ result_form self.first.0 (eight_from self.begin.0) k l) × Fit result }
    {
        let x = self.word_before(k, 64);
        let y = self.word_before(k, 0);
        let r = self.result_word(k);
        xor_of_two(x, y, r, l)
    }
}
