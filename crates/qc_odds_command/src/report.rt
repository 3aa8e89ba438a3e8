//! The report of a plan that is worked many times.
ghost use Rattle.qc_io.specs.Writes.{Writes};
ghost use Rattle.qc_run.specs.Reports.{Prints, PrintsPart, Reports};
ghost use Rattle.qc_run.specs.declared.status.Status.TheVariants as status;
ghost use Rattle.qc_odds_command.specs.Forecasts.{forecast_text, forecasting_status, forecasting_text};
ghost use Rattle.qc_odds_command.specs.Ready.{CanBeTold, IsReady};

use crate::answer::{Forecast, Forecasting};
use crate::ends_report::put_ends;
use crate::sums_report::put_sums;
use qc_io::{Sink, WriteFault};
use qc_model::ends;
use qc_run::{Ended, Status, report_broken};

/// Writes what the runs of a plan come to.
fn put_forecast<K: Sink>(told: &Forecast, sink: &mut K) -> Result<(), WriteFault>
    requires { IsReady told.now }
    ensures { Writes (K.view sink.old) (K.view sink.new) (forecast_text told.now) result }
{
    let (inst, plan) = (&told.job.inst, &told.job.sched);
    put_ends(&told.odds.tally, ends(inst, plan), told.by_tick, sink)?;
    put_sums(inst, plan, &told.odds, sink)
}

/// Prints what the runs of a plan come to.
fn report_forecast<K: Sink>(told: &Forecast, out: &mut K) -> Ended
    requires { IsReady told.now }
    ensures { Reports (Prints (forecast_text told.now)) (PrintsPart (forecast_text told.now)) status.Done
        (K.view out.old) (K.view out.new) result.status }
{
    match put_forecast(told, out) {
        Ok(()) => Ended::of(Status::Done),
        Err(WriteFault) => Ended::of(Status::WriteFault),
    }
}

/// Prints what a plan came to that is worked many times.
pub(crate) fn report<K: Sink>(answer: Forecasting, out: &mut K) -> Ended
    requires { CanBeTold answer }
    ensures { Reports (Prints (forecasting_text answer)) (PrintsPart (forecasting_text answer))
        (forecasting_status answer) (K.view out.old) (K.view out.new) result.status }
{
    match answer {
        Forecasting::Broken(told) => report_broken(told, out),
        Forecasting::Forecast(told) => report_forecast(&told, out),
    }
}
