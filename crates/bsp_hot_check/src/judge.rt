//! Each record after those before it: whether they allow it, and the state with it.

ghost use Rattle.std.specs.Prelude.{◌≡◌, ◌<◌, ◌^◌, length, true, false, Some, None};
ghost use Rattle.bsp_fields.specs.Columns.{is_wide};
ghost use Rattle.bsp_hot_records.specs.Judged.{IsSmallPart, IsSmallRecord};
ghost use Rattle.bsp_hot_check.specs.Standings.{step, allowed, form_at, is_airline, is_period, is_currency, is_agent, is_agent_after, is_key_after, is_next, IsSmall, IsSmallNext};
ghost use Rattle.bsp_hot_check.specs.Judging.{step_line};

use crate::model::{DocumentKey, OfficeSums, Place, Progress, Stage, Standing};
use crate::sums::part_sums;
use bsp_fields::{AirlineCode, PeriodCode};
use bsp_hot_records::{
    AgentDigits, CodeTotals, Document, DocumentCode, FileForm, FileTotals, Heading, OfficeHeader,
    OfficeTotals, PartOf, PeriodTotals, Record, Sums, TransactionHeader, read_record,
};

/// The form of the file. Before BFH01, which is the same in each form, it is form 1.
fn form_at(heading: Option<Heading>) -> FileForm
    ensures { result ≡ form_at heading }
{
    match heading {
        Some(heading) => heading.form,
        None => FileForm::One,
    }
}

/// Whether the airline is the file's.
fn is_airline(heading: Option<Heading>, airline: AirlineCode) -> bool
    ensures { result ≡ is_airline heading airline }
{
    match heading {
        Some(heading) => airline == heading.airline,
        None => false,
    }
}

/// Whether the period is the file's.
fn is_period(heading: Option<Heading>, period: PeriodCode) -> bool
    ensures { result ≡ is_period heading period }
{
    match heading {
        Some(heading) => period == heading.period,
        None => false,
    }
}

/// Whether the currency is the file's.
fn is_currency(heading: Option<Heading>, currency: [u8; 3]) -> bool
    ensures { result ≡ is_currency heading currency }
{
    match heading {
        Some(heading) => currency.as_slice() == heading.currency.as_slice(),
        None => false,
    }
}

/// Whether the agent comes behind the last office's.
fn is_agent_after(before: Option<AgentDigits>, agent: AgentDigits) -> bool
    ensures { result ≡ is_agent_after before agent }
{
    match before {
        Some(before) => before < agent,
        None => true,
    }
}

/// Whether the agent is the office's.
fn is_agent(office: Option<AgentDigits>, agent: AgentDigits) -> bool
    ensures { result ≡ is_agent office agent }
{
    match office {
        Some(office) => agent == office,
        None => false,
    }
}

/// Whether the document comes behind the office's last one.
fn is_key_after(before: Option<DocumentKey>, key: &DocumentKey) -> bool
    ensures { result ≡ is_key_after before key.now }
{
    match before {
        Some(before) => before.is_before(key),
        None => true,
    }
}

/// Whether the code is the next one.
fn is_next(next: Option<DocumentCode>, code: DocumentCode) -> bool
    ensures { result ≡ is_next next code }
{
    match next {
        Some(next) => next.rank() == code.rank(),
        None => false,
    }
}

impl Standing {
    /// BFH01 is the first record.
    #[tactic(auto, unfolding(crate::specs::Standings::step))]
    fn take_heading(&mut self, heading: Heading) -> bool
        requires { self.old.records < 2 ^ 63 }
        ensures next { step self.old (Record.FileHeader heading) ≡ allowed result self.new }
        ensures same { result ≡ false → self.new ≡ self.old }
    {
        if !matches!(self.place, Place::Start) {
            return false;
        }
        self.heading = Some(heading);
        self.move_to(Place::Headed);
        true
    }

    /// BCH02 is the second, of the same period.
    #[tactic(auto, unfolding(crate::specs::Standings::step))]
    fn take_period(&mut self, period: PeriodCode) -> bool
        requires { self.old.records < 2 ^ 63 }
        ensures next { step self.old (Record.PeriodHeader period) ≡ allowed result self.new }
        ensures same { result ≡ false → self.new ≡ self.old }
    {
        let may_come = matches!(self.place, Place::Headed) && is_period(self.heading, period);
        self.move_if(may_come, Place::Between)
    }

    /// BOH03 begins the office of a later agent, with the file's period and currency.
    #[tactic(auto, unfolding(crate::specs::Standings::step))]
    fn take_office(&mut self, office: OfficeHeader) -> bool
        requires { self.old.records < 2 ^ 63 }
        ensures next { step self.old (Record.OfficeHeader office) ≡ allowed result self.new }
        ensures same { result ≡ false → self.new ≡ self.old }
    {
        let allowed = matches!(self.place, Place::Between)
            && is_agent_after(self.agent, office.agent)
            && is_period(self.heading, office.period)
            && is_currency(self.heading, office.currency);
        if !allowed {
            return false;
        }
        self.agent = Some(office.agent);
        self.move_to(Place::Opened);
        true
    }

    /// BKT06 begins the next transaction, of the file's airline.
    #[tactic(auto, unfolding(crate::specs::Standings::step))]
    fn take_transaction(&mut self, header: TransactionHeader) -> bool
        requires room { self.old.records < 2 ^ 63 }
        requires small { IsSmall self.old }
        ensures next { step self.old (Record.TransactionHeader header) ≡ allowed result self.new }
        ensures same { result ≡ false → self.new ≡ self.old }
    {
        let transactions = self.transactions + 1;
        let allowed = self.place.takes_transaction()
            && header.transaction == transactions
            && is_airline(self.heading, header.airline);
        if !allowed {
            return false;
        }
        self.transactions = transactions;
        self.move_to(Place::Begun);
        true
    }

    /// BKS24 follows BKT06, with a later document of the office's agent.
    #[tactic(auto, unfolding(crate::specs::Standings::step))]
    fn take_document(&mut self, document: Document) -> bool
        requires room { self.old.records < 2 ^ 63 }
        requires small { IsSmall self.old }
        ensures next { step self.old (Record.Document document) ≡ allowed result self.new }
        ensures same { result ≡ false → self.new ≡ self.old }
    {
        let key = DocumentKey {
            code: document.code,
            number: document.number,
        };
        let is_later = is_key_after(self.office.latest, &key);
        let allowed = matches!(self.place, Place::Begun)
            && document.transaction == self.transactions
            && is_agent(self.agent, document.agent)
            && is_later;
        if !allowed {
            return false;
        }
        self.office.latest = Some(key);
        let progress = Progress {
            code: document.code,
            stage: Stage::Document,
            related: false,
            only: None,
        };
        self.count(progress, Sums::DOCUMENT);
        true
    }

    /// BKS30, BKS39, BKS42, BKS45 or BKP84 follows where the document takes it.
    #[tactic(auto, unfolding(crate::specs::Standings::step))]
    fn take_part(&mut self, next: PartOf) -> bool
        requires room { self.old.records < 2 ^ 63 }
        requires small { IsSmall self.old }
        requires part { IsSmallPart next.part }
        ensures next { step self.old (Record.PartOf next) ≡ allowed result self.new }
        ensures same { result ≡ false → self.new ≡ self.old }
    {
        let (Place::InDocument(progress), Some(heading)) = (self.place, self.heading) else {
            return false;
        };
        let allowed = progress.takes(heading.airline, next.part)
            && next.transaction == self.transactions;
        if !allowed {
            return false;
        }
        self.count(
            progress.behind(heading.form, next.part),
            part_sums(next.part),
        );
        true
    }

    /// BOT93 has the totals of the next code that has a document.
    #[tactic(auto, unfolding(crate::specs::Standings::step))]
    fn take_code_totals(&mut self, next: &CodeTotals) -> bool
        requires room { self.old.records < 2 ^ 63 }
        requires small { IsSmall self.old }
        ensures next { step self.old (Record.CodeTotals next.now) ≡ allowed result self.new }
        ensures same { result ≡ false → self.new ≡ self.old }
    {
        let allowed = is_next(self.office.codes.next_code(self.place), next.code)
            && is_agent(self.agent, next.agent)
            && self.office.codes.of(next.code).has(next.totals);
        self.move_if(allowed, Place::Totalled(next.code))
    }

    /// BOT94 has the totals of the office behind its last BOT93.
    #[tactic(auto, unfolding(crate::specs::Standings::step))]
    fn take_office_totals(&mut self, next: &OfficeTotals) -> bool
        requires room { self.old.records < 2 ^ 63 }
        requires small { IsSmall self.old }
        ensures next { step self.old (Record.OfficeTotals next.now) ≡ allowed result self.new }
        ensures same { result ≡ false → self.new ≡ self.old }
    {
        let allowed = matches!(self.place, Place::Totalled(_))
            && self.office.codes.next_code(self.place).is_none()
            && is_agent(self.agent, next.agent)
            && self.office.all.has(next.totals);
        if !allowed {
            return false;
        }
        self.offices += 1;
        self.office = OfficeSums::NONE;
        self.move_to(Place::Between);
        true
    }

    /// BCT95 has the number of offices and the totals of all documents, behind the last office.
    #[tactic(auto, unfolding(crate::specs::Standings::step))]
    fn take_period_totals(&mut self, next: &PeriodTotals) -> bool
        requires room { self.old.records < 2 ^ 63 }
        requires small { IsSmall self.old }
        ensures next { step self.old (Record.PeriodTotals next.now) ≡ allowed result self.new }
        ensures same { result ≡ false → self.new ≡ self.old }
    {
        let allowed = matches!(self.place, Place::Between)
            && is_period(self.heading, next.period)
            && next.offices == self.offices
            && self.file.has(next.totals);
        self.move_if(allowed, Place::Closed)
    }

    /// BFT99 is the last record, and has their number and the totals.
    #[tactic(auto, unfolding(crate::specs::Standings::step))]
    fn take_file_totals(&mut self, next: &FileTotals) -> bool
        requires room { self.old.records < 2 ^ 63 }
        requires small { IsSmall self.old }
        ensures next { step self.old (Record.FileTotals next.now) ≡ allowed result self.new }
        ensures same { result ≡ false → self.new ≡ self.old }
    {
        let allowed = matches!(self.place, Place::Closed)
            && is_airline(self.heading, next.airline)
            && next.records == self.records + 1
            && self.file.has(next.totals);
        self.move_if(allowed, Place::Ended)
    }

    /// Takes one more record, where those before allow it, and answers whether they do.
    fn take_record(&mut self, next: &Record) -> bool
        requires room { self.old.records < 2 ^ 63 }
        requires small { IsSmall self.old }
        requires next { IsSmallRecord next.now }
        ensures next { step self.old next.now ≡ allowed result self.new }
        ensures same { result ≡ false → self.new ≡ self.old }
    {
        match next {
            Record::FileHeader(heading) => self.take_heading(*heading),
            Record::PeriodHeader(period) => self.take_period(*period),
            Record::OfficeHeader(office) => self.take_office(*office),
            Record::TransactionHeader(header) => self.take_transaction(*header),
            Record::Document(document) => self.take_document(*document),
            Record::PartOf(part) => self.take_part(*part),
            Record::CodeTotals(next) => self.take_code_totals(next),
            Record::OfficeTotals(next) => self.take_office_totals(next),
            Record::PeriodTotals(next) => self.take_period_totals(next),
            Record::FileTotals(next) => self.take_file_totals(next),
        }
    }

    /// Takes one more line of a record's width, where it is a record that those before allow, and
    /// answers whether it is. After a refusal the state is as it was.
    pub fn take_line(&mut self, line: &[u8]) -> bool
        requires wide { is_wide line.now ≡ true }
        requires long { length line.now ≡ 136 }
        requires room { self.old.records < 2 ^ 63 }
        requires small { IsSmall self.old }
        ensures taken { result ≡ true → step_line self.old line.now ≡ Some self.new }
        ensures small { result ≡ true → IsSmallNext self.old self.new }
        ensures refused { result ≡ false → step_line self.old line.now ≡ None }
        ensures same { result ≡ false → self.new ≡ self.old }
    {
        match read_record(form_at(self.heading), self.records + 1, line) {
            Some(next) => self.take_record(&next),
            None => false,
        }
    }
}
