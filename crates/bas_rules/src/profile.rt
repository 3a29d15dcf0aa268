//! Which forms of the language have a meaning yet.

ghost use Rattle.std.specs.Prelude.{◌≡◌};
ghost use Rattle.std.specs.List.{list_all};
ghost use Rattle.bas_rules.specs.Profile as spec;

use bas_ast::{
    Any, Assignment, Flow, Head, Item, NumExpr, NumTarget, Output, PrintPart, Stmt, StrExpr,
    Target, Variable, VduPart,
};

fn plain_variable(variable: &Variable) -> bool
    ensures { result ≡ spec.plain_variable variable.now }
{
    matches!(variable, Variable::Simple(_))
}

#[tactic(auto, using(crate::proofs::Profiles::profiles), unfolding(crate::specs::Profile::num_in_profile))]
fn num_in_profile(x: &NumExpr) -> bool
    ensures { result ≡ spec.num_in_profile x.now }
{
    match x {
        NumExpr::Number(_) | NumExpr::True | NumExpr::False | NumExpr::Count => true,
        NumExpr::Variable(variable) => plain_variable(variable),
        NumExpr::Bracket(x) => num_in_profile(x.get()),
        NumExpr::Unary(_, x) => num_in_profile(x.get()),
        NumExpr::Binary(_, x, y) => num_in_profile(x.get()) && num_in_profile(y.get()),
        _ => false,
    }
}

fn text_in_profile(x: &StrExpr) -> bool
    ensures { result ≡ spec.text_in_profile x.now }
{
    matches!(x, StrExpr::Literal(_))
}

fn target_in_profile(target: &NumTarget) -> bool
    ensures { result ≡ spec.target_in_profile target.now }
{
    match target {
        NumTarget::Variable(variable) => plain_variable(variable),
        _ => false,
    }
}

fn assignment_in_profile(assignment: &Assignment) -> bool
    ensures { result ≡ spec.assignment_in_profile assignment.now }
{
    match assignment {
        Assignment::Number(target, x)
        | Assignment::Add(target, x)
        | Assignment::Subtract(target, x) => target_in_profile(target) && num_in_profile(x),
        _ => false,
    }
}

fn step_in_profile(step: &Option<NumExpr>) -> bool
    ensures { result ≡ spec.step_in_profile step.now }
{
    match step {
        None => true,
        Some(x) => num_in_profile(x),
    }
}

fn flow_in_profile(flow: &Flow) -> bool
    ensures { result ≡ spec.flow_in_profile flow.now }
{
    match flow {
        Flow::For(_, start, limit, step) => {
            num_in_profile(start) && num_in_profile(limit) && step_in_profile(step)
        }
        Flow::Until(x) | Flow::While(x) => num_in_profile(x),
        Flow::Goto(_) | Flow::Gosub(_) | Flow::Return | Flow::Next(_) | Flow::EndWhile => true,
        Flow::End | Flow::Stop | Flow::Quit => true,
    }
}

fn print_part_in_profile(part: &PrintPart) -> bool
    ensures { result ≡ spec.print_part_in_profile part.now }
{
    match part {
        PrintPart::Comma | PrintPart::Semicolon | PrintPart::NewLine => true,
        PrintPart::Text(x) => text_in_profile(x),
        PrintPart::Number(_, x) | PrintPart::Spaces(x) | PrintPart::Tab(x) => num_in_profile(x),
    }
}

fn vdu_part_in_profile(part: &VduPart) -> bool
    ensures { result ≡ spec.vdu_part_in_profile part.now }
{
    match part {
        VduPart::Byte(x) | VduPart::Word(x) => num_in_profile(x),
    }
}

fn print_in_profile(parts: &[PrintPart]) -> bool
    ensures { result ≡ list_all spec.print_part_in_profile parts.now }
{
    for i in 0..parts.len() {
        if !print_part_in_profile(&parts[i]) {
            return false;
        }
    }
    true
}

fn vdu_in_profile(parts: &[VduPart]) -> bool
    ensures { result ≡ list_all spec.vdu_part_in_profile parts.now }
{
    for i in 0..parts.len() {
        if !vdu_part_in_profile(&parts[i]) {
            return false;
        }
    }
    true
}

fn output_in_profile(output: &Output) -> bool
    ensures { result ≡ spec.output_in_profile output.now }
{
    match output {
        Output::Print(parts) => print_in_profile(parts.as_slice()),
        Output::Vdu(parts) => vdu_in_profile(parts.as_slice()),
        Output::Mode(x) | Output::Colour(x) => num_in_profile(x),
        Output::Cls => true,
    }
}

fn read_in_profile(target: &Target) -> bool
    ensures { result ≡ spec.read_in_profile target.now }
{
    match target {
        Target::Number(target) => target_in_profile(target),
        Target::Text(_) => false,
    }
}

fn reads_in_profile(targets: &[Target]) -> bool
    ensures { result ≡ list_all spec.read_in_profile targets.now }
{
    for i in 0..targets.len() {
        if !read_in_profile(&targets[i]) {
            return false;
        }
    }
    true
}

fn stmt_in_profile(stmt: &Stmt) -> bool
    ensures { result ≡ spec.stmt_in_profile stmt.now }
{
    match stmt {
        Stmt::Assign(assignment) => assignment_in_profile(assignment),
        Stmt::Flow(flow) => flow_in_profile(flow),
        Stmt::Output(output) => output_in_profile(output),
        Stmt::Read(targets) => reads_in_profile(targets.as_slice()),
        Stmt::Restore(_) => true,
        _ => false,
    }
}

fn value_in_profile(value: &Any) -> bool
    ensures { result ≡ spec.value_in_profile value.now }
{
    match value {
        Any::Number(x) => num_in_profile(x),
        Any::Text(_) => false,
    }
}

fn values_in_profile(values: &[Any]) -> bool
    ensures { result ≡ list_all spec.value_in_profile values.now }
{
    for i in 0..values.len() {
        if !value_in_profile(&values[i]) {
            return false;
        }
    }
    true
}

fn head_in_profile(head: &Head) -> bool
    ensures { result ≡ spec.head_in_profile head.now }
{
    match head {
        Head::When(values) => values_in_profile(values.as_slice()),
        Head::Otherwise | Head::BlockElse | Head::EndIf | Head::EndCase => true,
        Head::DefProcedure(_, _) | Head::DefFunction(_, _) => false,
    }
}

fn item_in_profile(item: &Item) -> bool
    ensures { result ≡ spec.in_profile item.now }
{
    match item {
        Item::Head(head) => head_in_profile(head),
        Item::Stmt(stmt) => stmt_in_profile(stmt),
        Item::If(x) | Item::BlockIf(x) | Item::On(x, _, _) => num_in_profile(x),
        Item::Case(value) => value_in_profile(value),
        Item::Else | Item::Repeat | Item::Data(_) | Item::Remark => true,
        _ => false,
    }
}

/// Whether all items of a line have a meaning yet.
pub fn in_profile(items: &[Item]) -> bool
    ensures { result ≡ list_all spec.in_profile items.now }
{
    for i in 0..items.len() {
        if !item_in_profile(&items[i]) {
            return false;
        }
    }
    true
}
