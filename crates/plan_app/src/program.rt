//! The top call: all that the program does.

ghost use Rattle.std.specs.Prelude.{◌≡◌, ◌≢◌, ◌⊎◌, ◌↔◌, ℕ, List, Err};
ghost use Rattle.std.specs.Io.KnownBytes.{Appends};
ghost use Rattle.shelf_io.specs.Causes.{Rose};
ghost use Rattle.shelf_io.specs.Streams.{PutsPrefix};
ghost use Rattle.plan_request.specs.declared.stop.status.TheConstants.{DONE, BAD_WORDS, READ_FAILED};
ghost use Rattle.plan_request.specs.declared.stop.status.TheConstants.{WRITE_FAILED, NO_MEMORY, REFUSED};
ghost use Rattle.plan_request.specs.declared.stop.status.TheConstants.{NOT_ACCEPTED, LIMIT};
ghost use Rattle.plan_request.specs.declared.stop.Stop.TheVariants.{WriteFailed};
ghost use Rattle.policy_server.specs.Serving.{input};
ghost use Rattle.plan_request.specs.Asked.{Asked, Sources, Solving, Merging, Walking, Drawing};
ghost use Rattle.plan_request.specs.Asked.{to_solve, to_serve, to_bench};
ghost use Rattle.plan_sources.specs.declared.texts.Texts.{Texts};
ghost use Rattle.plan_app.specs.Asking.{asked_by, Asks, AsksNothing, AsksToWrite, AsksToServe};
ghost use Rattle.plan_app.specs.Endings.{Lacks, Faults, MayEndAs, LeavesForWords, CallsForWords};
ghost use Rattle.plan_app.specs.Verdicts.{TellsTexts, TellsGround, TellsCheck, TellsJudged};
ghost use Rattle.plan_app.specs.Verdicts.{TellsSearch, TellsWalk, TellsDraw};
ghost use Rattle.plan_app.specs.Verdicts.{HasVerdict, HasReport, IsAnswerTo};
ghost use Rattle.plan_app.specs.Verdicts.{IsRefused, IsLimited, IsGrounded, IsAccepted, IsRejected};
ghost use Rattle.plan_app.specs.Verdicts.{MayBeTooLong, PutsRefusal, PutsProblem, PutsReport};
ghost use Rattle.plan_app.specs.Verdicts.{EndsSoon};
ghost use Rattle.plan_app.specs.Solutions.{PutsService, PutsMeasure};
ghost use Rattle.plan_app.specs.Below.{PutsSolved};
ghost use Rattle.plan_app.specs.Merged.{TellsMerge, IsMerged, IsUnmerged, PutsMerged};
ghost use Rattle.plan_app.specs.Walks.{PutsWalks};
ghost use Rattle.plan_app.specs.Drawn.{PutsDrawn};
ghost use Rattle.plan_app.specs.Putting.{PutsPart, SaysPut, SaysCutShort};
ghost use Rattle.plan_app.specs.Reasons.{HasReason, PutsReason};
ghost use Rattle.plan_app.specs.Progress.{AsksToTell, TellsRounds, AreRoundsOn};

use crate::certificates::task_certificate_laws;
use crate::commands::report_of;
use crate::progress_lines::ProgressLines;
use crate::reasons::{put_reason, stop_in};
use bench_line::line_laws;
use cert_merge::merged_laws;
use certificate::text_laws;
use certificate_check::check_laws;
use ground_meaning::{
    same_cost_laws, same_level_laws, same_value_laws, stands_laws, task_progress_laws,
};
use plan_request::{NO_MEMORY, Report, Stop, WRITE_FAILED, request_laws};
use plan_sources::source_laws;
use ppddl_model::task_laws;
use shelf_io::{Gate, Shelf, Sink, Source, put_all};
use std::alloc::Global;
use std::thread::Threads;

/// Runs the program with the words behind its name, and answers its status.
///
/// `check`, `walk`, `ground` and `bench` change nothing on the shelf; `solve`, `serve`, `merge` and `draw` change
/// the name of the text that they write alone. Under `serve` alone something is taken from the source.
pub fn run<
    R: Threads + Sync,
    S: Shelf,
    I: Source + Send,
    O: Sink + Send,
    N: Sink + Send,
    P: Sink + Send,
    G: Gate,
>(
    rt: &R,
    alloc: Global,
    words: &[&str],
    shelf: &mut S,
    source: &mut I,
    out: &mut O,
    notes: &mut N,
    progress: &mut ProgressLines<P>,
    gate: &G,
) -> u8
    // How a run ends: the answers of a server and the whole text of the ending are put, or after 4 at most
    // a first part. There are no answers but under `serve`.
    ensures ends { let from = input I.left I.ends I.faults source.old
        in let to = input I.left I.ends I.faults source.new
        in result ≢ WRITE_FAILED → (text : List ℕ)
        × MayEndAs S.held S.read_faults S.write_faults words.now shelf.old shelf.new from to
        result text
        × Appends (O.taken out.old) (O.taken out.new) text }
    ensures cut_short { let from = input I.left I.ends I.faults source.old
        in let to = input I.left I.ends I.faults source.new
        in result ≡ WRITE_FAILED → (status : ℕ) × (text : List ℕ)
        × MayEndAs S.held S.read_faults S.write_faults words.now shelf.old shelf.new from to
        status text
        × PutsPart (O.taken out.old) (O.taken out.new) status text }

    // Where the status is none of 3, 4 and 5, it is what the words and the bytes say.
    ensures bad_words { result ≢ WRITE_FAILED → result ≢ NO_MEMORY
        → (result ≡ BAD_WORDS) ↔ AsksNothing words.now }
    ensures refused { (s : Sources) (t : Texts) → TellsTexts words.now (S.held shelf.old) s t
        → HasVerdict result → (result ≡ REFUSED) ↔ IsRefused s t }
    ensures refuses { (s : Sources) (t : Texts) → TellsTexts words.now (S.held shelf.old) s t
        → result ≡ REFUSED → PutsRefusal s t (O.taken out.old) (O.taken out.new) }
    ensures limited { (s : Sources) (t : Texts) → TellsTexts words.now (S.held shelf.old) s t
        → HasVerdict result → IsLimited s t → result ≡ LIMIT }
    ensures limited_only { (s : Sources) (t : Texts) → TellsTexts words.now (S.held shelf.old) s t
        → result ≡ LIMIT → IsLimited s t ⊎ MayBeTooLong words.now s t }
    ensures grounded { (s : Sources) (t : Texts) → TellsGround words.now (S.held shelf.old) s t
        → HasVerdict result → (result ≡ DONE) ↔ IsGrounded s t }
    ensures accepted { (s : Sources) (t : Texts) (f : List ℕ)
        → TellsJudged words.now (S.held shelf.old) s t f
        → HasVerdict result → (result ≡ DONE) ↔ IsAccepted s t f }
    ensures rejected { (s : Sources) (t : Texts) (f : List ℕ)
        → TellsJudged words.now (S.held shelf.old) s t f
        → HasVerdict result → (result ≡ NOT_ACCEPTED) ↔ IsRejected s t f }
    ensures merged { (m : Merging) (t : Texts) (f f' : List ℕ)
        → TellsMerge words.now (S.held shelf.old) m t f f'
        → HasVerdict result → (result ≡ DONE) ↔ IsMerged m.sources t f f' }
    ensures unmerged { (m : Merging) (t : Texts) (f f' : List ℕ)
        → TellsMerge words.now (S.held shelf.old) m t f f'
        → HasVerdict result → (result ≡ NOT_ACCEPTED) ↔ IsUnmerged m.sources t f f' }

    // The problem that was printed stands for the task of the texts.
    ensures stands { (s : Sources) (t : Texts) → TellsGround words.now (S.held shelf.old) s t
        → result ≡ DONE → PutsProblem s t (O.taken out.old) (O.taken out.new) }

    // The certificate that was accepted encloses the cost of the task.
    ensures encloses { (s : Sources) (t : Texts) (f : List ℕ)
        → TellsCheck words.now (S.held shelf.old) s t f
        → result ≡ DONE → PutsReport s t f (O.taken out.old) (O.taken out.new) }

    // Its policy ends: n steps are made with a chance of at most the upper value over n times the least cost of
    // a step.
    ensures ends_soon { (s : Sources) (t : Texts) (f : List ℕ)
        → TellsJudged words.now (S.held shelf.old) s t f → result ≡ DONE → EndsSoon s t f }

    // The walks that were put are those of the ground problem under the policy of the certificate, and each is a
    // run of the task under it.
    ensures walks { (w : Walking) (t : Texts) (f : List ℕ)
        → TellsWalk words.now (S.held shelf.old) w t f
        → result ≡ DONE → PutsWalks w t f (O.taken out.old) (O.taken out.new) }

    // The text of the graph of the certificate's policy was written: states that the policy reaches from the
    // starts, with what the certificate says of them and the outcomes of what is done there.
    ensures draws { (d : Drawing) (t : Texts) (f : List ℕ)
        → TellsDraw words.now (S.held shelf.old) d t f
        → result ≡ DONE → PutsDrawn d t f (S.held shelf.new d.into)
        (O.taken out.old) (O.taken out.new) }

    // The certificate that two were merged to was written. It is one that `check` accepts, and its interval lies
    // in both.
    ensures merges { (m : Merging) (t : Texts) (f f' : List ℕ)
        → TellsMerge words.now (S.held shelf.old) m t f f'
        → result ≡ DONE → PutsMerged m.sources t f f' (S.held shelf.new m.into)
        (O.taken out.old) (O.taken out.new) }

    // The certificate that was written is one that `check` accepts. It is as narrow as plain rounded iteration
    // makes the interval in so many rounds, and wider than was asked for only where that is too.
    // What is told from below, if it is asked for, stands in a line behind the report: no plans cost less.
    ensures solves { (s : Solving) (t : Texts)
        → TellsSearch words.now (S.held shelf.old) to_solve s t
        → HasReport result → PutsSolved s.lower s t result (S.held shelf.new s.certificate)
        (O.taken out.old) (O.taken out.new) }
    // Under `serve` the same, behind the answers to all queries, none of which is narrower than the certificate.
    ensures serves { (s : Solving) (t : Texts)
        → TellsSearch words.now (S.held shelf.old) to_serve s t
        → HasReport result → let from = input I.left I.ends I.faults source.old
        in let to = input I.left I.ends I.faults source.new
        in PutsService s t result (S.held shelf.new s.certificate) from to
        (O.taken out.old) (O.taken out.new) }
    ensures measures { (places seed : ℕ) → Asks words.now (to_bench places seed)
        → HasReport result → PutsMeasure places seed result (O.taken out.old) (O.taken out.new) }

    // When 3 and 4 come.
    ensures read_failed { result ≡ READ_FAILED
        → ((q : Asked) × Asks words.now q × Lacks (S.held shelf.old) q)
        ⊎ (Rose (S.read_faults shelf.old) (S.read_faults shelf.new)
        ⊎ (AsksToServe words.now × Rose (I.faults source.old) (I.faults source.new))) }
    ensures write_failed { result ≡ WRITE_FAILED → Rose (O.faults out.old) (O.faults out.new)
        ⊎ (AsksToWrite words.now × Rose (S.write_faults shelf.old) (S.write_faults shelf.new)) }

    // Want of memory, 5, is free. It puts nothing, and nor does a certificate that was not written; but the
    // answers of a server may stand.
    ensures memory { result ≡ NO_MEMORY → AsksToServe words.now
        ⊎ (O.taken out.new ≡ O.taken out.old) }
    ensures unwritten { result ≡ WRITE_FAILED → AsksToServe words.now
        ⊎ (Rose (O.faults out.old) (O.faults out.new) ⊎ (O.taken out.new ≡ O.taken out.old)) }

    // A request has an answer where no fault came and no name is missing.
    ensures answered { (q : Asked) → Asks words.now q
        → ¬ Lacks (S.held shelf.old) q
        → ¬ Faults S.read_faults S.write_faults I.faults shelf.old shelf.new source.old source.new q
        → ¬ Rose (O.faults out.old) (O.faults out.new) → IsAnswerTo q result }

    // How often the shelf is asked, and what stays.
    ensures calls { CallsForWords S.held S.calls shelf.old shelf.new (asked_by words.now) }
    ensures shelf { LeavesForWords S.held S.read_faults S.write_faults shelf.old shelf.new
        (asked_by words.now) }
    ensures source { AsksToServe words.now ⊎ (source.new ≡ source.old) }
    // Where words ask for nothing, texts are refused, a certificate is not accepted or a limit is passed, it is
    // noted what is wrong and where, behind what was noted before; want of memory and faults are free. With any
    // other status nothing is.
    ensures reasons { HasReason result → PutsReason words.now result (O.taken out.new)
        (N.faults notes.old) (N.faults notes.new) (N.taken notes.old) (N.taken notes.new) }
    ensures no_reasons { ¬ HasReason result → notes.new ≡ notes.old }

    // Where a search is asked to tell of its rounds, a line is put of each reading, until a put fails: each is of a
    // later round than the one before, and its interval lies within that one's. Where the search ended with a report,
    // each interval encloses that of the certificate, and is no wider than plain rounded iteration makes it in as
    // many rounds. Nothing is put there but these lines.
    ensures tells { (s : Solving) → AsksToTell words.now s
        → TellsRounds P.taken P.faults progress.old progress.new
        (AreRoundsOn (S.held shelf.old) (S.held shelf.new) result s) }
    ensures quiet { ¬ ((s : Solving) × AsksToTell words.now s)
        → progress.new.sink ≡ progress.old.sink }
{
    // The laws on which the clauses rest.
    request_laws();
    source_laws();
    line_laws();
    text_laws();
    check_laws();
    merged_laws();
    task_laws();
    stands_laws();
    same_cost_laws();
    same_value_laws();
    same_level_laws();
    task_certificate_laws();
    task_progress_laws();
    let ending = report_of(rt, alloc, words, shelf, source, out, progress, gate);
    put_ending(alloc, words, out, notes, ending)
}

/// Puts the report or the line of the stop, and answers the status; 4 where it was not put whole. Behind the line
/// of a stop its reason is put on `notes`.
fn put_ending<O: Sink, N: Sink>(
    alloc: Global,
    words: &[&str],
    out: &mut O,
    notes: &mut N,
    ending: Result<Report, Stop>,
) -> u8
    ensures put { result ≢ WRITE_FAILED
        → SaysPut ending result (O.taken out.old) (O.taken out.new) }
    ensures cut_short { result ≡ WRITE_FAILED
        → SaysCutShort ending (O.taken out.old) (O.taken out.new) }
    ensures memory { result ≡ NO_MEMORY → O.taken out.new ≡ O.taken out.old }
    ensures write_failed { result ≡ WRITE_FAILED
        → Rose (O.faults out.old) (O.faults out.new) ⊎ (ending ≡ Err WriteFailed) }
    ensures unwritten { ending ≡ Err WriteFailed → out.new ≡ out.old }
    ensures reasons { HasReason result → PutsReason words.now result (O.taken out.new)
        (N.faults notes.old) (N.faults notes.new) (N.taken notes.old) (N.taken notes.new) }
    ensures no_reasons { ¬ HasReason result → notes.new ≡ notes.old }
{
    let stopped = stop_in(&ending);
    let status = put_answer(alloc, out, ending);
    put_reason(alloc, words, notes, stopped, status);
    status
}

/// Puts the report or the line of the stop, and answers the status; 4 where it was not put whole.
fn put_answer<O: Sink>(alloc: Global, out: &mut O, ending: Result<Report, Stop>) -> u8
    ensures put { result ≢ WRITE_FAILED
        → SaysPut ending result (O.taken out.old) (O.taken out.new) }
    ensures cut_short { result ≡ WRITE_FAILED
        → SaysCutShort ending (O.taken out.old) (O.taken out.new) }
    ensures memory { result ≡ NO_MEMORY → O.taken out.new ≡ O.taken out.old }
    ensures write_failed { result ≡ WRITE_FAILED
        → Rose (O.faults out.old) (O.faults out.new) ⊎ (ending ≡ Err WriteFailed) }
    ensures unwritten { ending ≡ Err WriteFailed → out.new ≡ out.old }
{
    match ending {
        Ok(report) => put(out, report.text(), report.status()),
        Err(Stop::WriteFailed) => WRITE_FAILED,
        Err(stop) => match stop.line(alloc) {
            Ok(line) => put(out, line.as_str().as_bytes(), stop.status()),
            Err(_) => NO_MEMORY,
        },
    }
}

/// Puts the text, and answers the status; 4 where the text was not put whole.
fn put<O: Sink>(out: &mut O, text: &[u8], status: u8) -> u8
    requires { status ≢ WRITE_FAILED }
    ensures status { result ≢ WRITE_FAILED → result ≡ status }
    ensures put { result ≢ WRITE_FAILED
        → Appends (O.taken out.old) (O.taken out.new) text.now }
    ensures cut_short { result ≡ WRITE_FAILED
        → PutsPrefix (O.taken out.old) (O.taken out.new) text.now }
    ensures write_failed { result ≡ WRITE_FAILED → Rose (O.faults out.old) (O.faults out.new) }
{
    match put_all(out, text) {
        Ok(()) => status,
        Err(_) => WRITE_FAILED,
    }
}
