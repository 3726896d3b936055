//! Laws of the constant pool that is assembled.

ghost use Rattle.std.specs.Prelude.{ℕ, ℤ, List, Ok};
ghost use Rattle.std.specs.List.{AllByRecursion, flat_map};
ghost use Rattle.class_model.specs.declared.constant.Const.{Const as OneConst};
ghost use Rattle.class_model.specs.declared.class_file.ClassFile.{ClassFile};
ghost use Rattle.class_grammar.specs.Layout.{class_file};
ghost use Rattle.class_grammar.specs.Ranges.{IsPool};
ghost use Rattle.class_grammar.specs.Checks.{constant_items};
ghost use Rattle.class_grammar.specs.Grammar.{IsSound, Spells};
ghost use Rattle.jasm.specs.Texts.{Assembles};
ghost use Rattle.asm_soundness.specs.Pools as spec;
ghost use Rattle.asm_soundness.specs.SoundStates.{IsSoundFile};

/// Each mention of a constant leaves a pool that a class file may have, and gives the index of the constant. This does
/// nothing.
pub fn pools_stay_sound()
    ensures text { (units : List ℕ) (pool : List OneConst) → spec.KeepsText units pool }
    ensures class { (name : List ℕ) (pool : List OneConst) → spec.KeepsClass name pool }
    ensures string { (units : List ℕ) (pool : List OneConst) → spec.KeepsString units pool }
    ensures numbers { (n : ℤ) (pool : List OneConst) → spec.KeepsNumbers n pool }
    ensures members { (owner name descriptor : List ℕ) (pool : List OneConst)
        → spec.KeepsMembers owner name descriptor pool }
{}

/// A pool that a class file may have, as far as assembler text makes it, keeps to the grammar of class files: its
/// numbers fit their fields, and nothing is wrong with a constant (JVMS 4.4). This does nothing.
pub fn sound_pools_are_spelled()
    ensures range { (pool : List OneConst) → spec.IsSoundPool pool → IsPool pool }
    ensures sound { (pool : List OneConst) → spec.IsSoundPool pool
        → AllByRecursion IsSound (flat_map (constant_items pool) pool) }
{}

/// A class file whose parts are such as a class file may have is spelled. This does nothing.
pub fn sound_files_are_spelled()
    ensures { (f : ClassFile) → IsSoundFile f → Spells (class_file f) f }
{}

/// The class file that a text of the assembler makes is spelled, so it can be written. This does nothing.
pub fn assembled_is_spelled()
    ensures { (text : List ℕ) (f : ClassFile) → Assembles text (Ok f) → Spells (class_file f) f }
{}
