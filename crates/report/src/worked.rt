// Worked examples of the definitions of the reports. Each function does nothing: its contract is the example.
ghost use Rattle.std.specs.Prelude.{◌≡◌};
ghost use Rattle.report.specs.Json.{report_json};
ghost use Rattle.report.specs.Reports.{report_text};
ghost use Rattle.report.specs.Worked.{one_json, one_report, one_request};

/// The report of a history of one request, as text and as JSON.
pub fn report_of_one_request()
    ensures text { report_text one_request ≡ one_report }
    ensures json { report_json one_request ≡ one_json }
{}
