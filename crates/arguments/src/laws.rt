//! Laws of the definitions. The functions do nothing: their contracts are the laws.

ghost use Rattle.std.specs.Prelude.{◌≡◌, ◌≤◌, ◌<◌, ◌^◌, ◌∷◌, ℕ, IfSome, List, Option, Some, length};
ghost use Rattle.std.specs.List.{AllByRecursion};
ghost use Rattle.arguments.specs.Commands.{asm, command_of, gen, list, run};
ghost use Rattle.arguments.specs.PlainWords.{AreDifferent, IsInRange, IsPlain, RunOption, plain_asm_words, plain_gen, plain_gen_words, plain_list_words, plain_run, plain_run_words};

/// Plain words always spell their command, so they are refused for want of memory alone.
pub fn plain_words_spell()
    // `run`, each option at most once, MAIN, and one FILE or more.
    ensures run { (program : List ℕ) (options : List RunOption) (main file : List ℕ)
        (files : List (List ℕ)) → AllByRecursion IsInRange options → AreDifferent options
        → AllByRecursion IsPlain (main ∷ (file ∷ files)) → length (file ∷ files) < 2 ^ 64
        → command_of (plain_run_words program options main (file ∷ files))
        ≡ Some (run (plain_run options main (file ∷ files))) }
    // `asm` and `list`, each with its FILE.
    ensures asm { (program file : List ℕ) → IsPlain file
        → command_of (plain_asm_words program file) ≡ Some (asm file) }
    ensures list { (program file : List ℕ) → IsPlain file
        → command_of (plain_list_words program file) ≡ Some (list file) }
    // `gen`, its option at most once, and COUNT.
    ensures generated { (program : List ℕ) (carriers : Option ℕ) (count : ℕ)
        → IfSome carriers (λ n. (1 ≤ n) × (n ≤ 64)) → 1 ≤ count → count ≤ 50000
        → command_of (plain_gen_words program carriers count)
        ≡ Some (gen (plain_gen carriers count)) }
{}
