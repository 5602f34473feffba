// The law of drafting, on the contract of a function that does nothing.
ghost use Rattle.report.specs.Reports.{ARowExtendsTheReport, RowsMakeTheReport};

pub fn rows_make_the_report()
    ensures whole { RowsMakeTheReport }
    ensures each { ARowExtendsTheReport }
{}
