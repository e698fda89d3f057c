//! What holds of every outcome.
ghost use Rattle.std.specs.Prelude.{◌≡◌, ℕ, List};
ghost use Rattle.zk_top.specs.Headline.{CheckHeadline, Headline};
ghost use Rattle.zk_top.specs.Outcome.{Outcome, Contents, AreBytes, IsRunOutcome, IsWitnessOutcome, IsCheckOutcome, IsPilOutcome, IsDemoOutcome, IsOutcome};
ghost use Rattle.host_io.specs.World.{Asked};
ghost use Rattle.demo_program.specs.Demo.{IsSize};
ghost use Rattle.demo_program.specs.declared.kind.DemoKind.{DemoKind};

use bus_check::one_verdict;
use demo_program::{demo_runs, demo_words};
use elf_load::{input_apart, loaded_is_loadable, one_answer};
use run_accepted::completeness;
use rv_model::run_law;
use tab_file::laws::{one_text, reads_or_fails};
use verdict::soundness_laws;
use zk_words::one_command;

/// Whatever the words are and whatever bytes the files hold, they come to one outcome and no other.
pub fn one_outcome()
    ensures some { (contents : Contents) (words : List (List ℕ)) → AreBytes contents → (o : Outcome) × IsOutcome contents words o }
    ensures one { (contents : Contents) (words : List (List ℕ)) (o p : Outcome) → IsOutcome contents words o → IsOutcome contents words p → o ≡ p }
{
    one_command();
    one_run();
    one_witness();
    one_check();
    one_pil();
    one_demo();
}

/// The headline, of what commands come to (specs/Headline.antt). The call computes nothing.
pub fn headline()
    ensures { Headline }
{
    one_command();
    one_answer();
    run_law();
    check_headline();
}

/// What it says of `check`.
pub(crate) fn check_headline()
    ensures { CheckHeadline }
{
    one_command();
    one_answer();
    input_apart();
    loaded_is_loadable();
    one_verdict();
    one_text();
    reads_or_fails();
    completeness();
    soundness_laws();
}

// Whatever the files hold, `run` comes to one outcome and no other.
fn one_run()
    ensures some { (contents : Contents) (elf input : List ℕ) (steps : ℕ) → (o : Outcome) × IsRunOutcome contents elf input steps o }
    ensures one { (contents : Contents) (elf input : List ℕ) (steps : ℕ) (o p : Outcome) → IsRunOutcome contents elf input steps o → IsRunOutcome contents elf input steps p → o ≡ p }
{
    one_answer();
}

// Whatever the files hold, `witness` comes to one outcome and no other.
fn one_witness()
    ensures some { (contents : Contents) (elf input tables : List ℕ) (steps : ℕ) → (o : Outcome) × IsWitnessOutcome contents elf input tables steps o }
    ensures one { (contents : Contents) (elf input tables : List ℕ) (steps : ℕ) (o p : Outcome) → IsWitnessOutcome contents elf input tables steps o → IsWitnessOutcome contents elf input tables steps p → o ≡ p }
{
    one_answer();
}

// Whatever bytes the files hold, `check` comes to one outcome and no other.
fn one_check()
    ensures some { (contents : Contents) (elf input tables : List ℕ) → AreBytes contents → (o : Outcome) × IsCheckOutcome contents elf input tables o }
    ensures one { (contents : Contents) (elf input tables : List ℕ) (o p : Outcome) → IsCheckOutcome contents elf input tables o → IsCheckOutcome contents elf input tables p → o ≡ p }
{
    one_answer();
    one_verdict();
    one_text();
    reads_or_fails();
}

// Whatever program `demo` makes, it comes to one outcome and no other.
fn one_demo()
    ensures some { (names : List Asked) (number : ℕ) (kind : DemoKind) (size : ℕ) → IsSize size → (o : Outcome) × IsDemoOutcome names number kind size o }
    ensures one { (names : List Asked) (number : ℕ) (kind : DemoKind) (size : ℕ) (o p : Outcome) → IsDemoOutcome names number kind size o → IsDemoOutcome names number kind size p → o ≡ p }
{
    demo_runs();
    demo_words();
    one_answer();
    loaded_is_loadable();
    run_law();
    completeness();
}

// Whatever bytes the files hold, `pil` comes to one outcome and no other.
fn one_pil()
    ensures some { (contents : Contents) (pil tables : List ℕ) → AreBytes contents → (o : Outcome) × IsPilOutcome contents pil tables o }
    ensures one { (contents : Contents) (pil tables : List ℕ) (o p : Outcome) → IsPilOutcome contents pil tables o → IsPilOutcome contents pil tables p → o ≡ p }
{
    pil_text::one_answer();
    one_verdict();
    one_text();
    reads_or_fails();
}
