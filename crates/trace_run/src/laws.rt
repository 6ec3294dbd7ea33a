//! Laws of traces. They stand for no work: their bodies are empty.

ghost use Rattle.std.specs.Prelude.{ℕ, List, Result};
ghost use Rattle.syscall_log.specs.declared.log.Log.{Log};
ghost use Rattle.trace_run.specs.declared.report.Report.{Report};
ghost use Rattle.trace_run.specs.declared.tracing.TraceFault.{TraceFault};
ghost use Rattle.trace_run.specs.Reports.{AreSame, IsTrace};

/// A file, a log and a number of steps have one outcome, want of memory aside: two reports of them show the same, no report
/// is there where too many bytes would be mapped, and their number is one.
pub fn one_trace()
    ensures { (b : List ℕ) (log : Log) (steps : ℕ) (x y : Result Report TraceFault) →
        IsTrace b log steps x → IsTrace b log steps y → AreSame x y }
{}
