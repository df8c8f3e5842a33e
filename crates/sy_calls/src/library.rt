//! Objects of the library, its functions and members. (SYCL 2020, "SYCL programming interface")

ghost use Rattle.std.specs.Prelude.{◌≡◌, ◌++◌, ◌&&◌, not, List};
ghost use Rattle.std.specs.List.{list_all};
ghost use Rattle.sy_calls.specs.Library.{not_for_host, function_faults, function_is_foreign, is_lone_code, changes_constant, member_faults, denotes_member, seen_member};
ghost use Rattle.sy_findings.specs.Told.{told};
ghost use Rattle.sy_note.specs.declared.Code.TheVariants as code;
ghost use Rattle.sy_note.specs.declared.Spot.{Spot as Place};
ghost use Rattle.sy_tree.specs.declared.parts.Brackets.{Brackets as TheBrackets};
ghost use Rattle.sy_rules.specs.ExprRules.{faults, expr_faults, if_written, in_type, wide_literal, no_dimension, bad_declaration, is_wrong_dimension, is_wrong_arguments, is_wrong_element, member_of, gives_in, fit_in, is_no_member, is_data, is_taken_data, changes_vector};
ghost use Rattle.sy_rules.specs.ExprTypes.{seen_as, is_sound_argument};
ghost use Rattle.sy_rules.specs.Faults.{at};
ghost use Rattle.sy_rules.specs.Foreign.{is_host, made_in_host, type_start, type_word};
ghost use Rattle.sy_rules.specs.Objects.{object_row};
ghost use Rattle.sy_rules.specs.Seen.{when, passes, is_known};
ghost use Rattle.sy_rules.specs.Words.{member_named};
ghost use Rattle.sy_rules.specs.declared.seen.SeenArgument.{SeenArgument as AnArgument};
ghost use Rattle.sy_tree.specs.declared.tree.Argument.TheOpen.{Expr-F};

use crate::arguments::{all_sound, arguments_read};
use sqlite_items::Boxed;
use sy_constructs::{
    is_compared, is_group, is_host, is_kernel, is_known, no_dimension, settle, value, wide_literal,
};
use sy_findings::Findings;
use sy_fits::{is_const, is_reduction_call, library_row};
use sy_members::{member_named, member_row, row_with};
use sy_names::Names;
use sy_note::{Code, Spot};
use sy_objects::{is_made_in, made_in_host, object_row, type_start, type_word};
use sy_rules::{Constant, Denotes, Fit, Row, Seen, SeenArgument, Taken, Within};
use sy_tree::{Brackets, Lexeme, LibraryFunction, ObjectType, Qualified, TemplateArgument};
use sy_typed::{Member, Thing};

// ---- how arguments fit

fn wrong_dimension(findings: &mut Findings, fit: Fit, word: Spot)
    ensures { findings.new ≡ told findings.old (at code.BadDimension (when (is_wrong_dimension fit) word)) }
{
    let is_wrong = matches!(fit, Fit::WrongDimension);
    findings.tell_if(is_wrong, Code::BadDimension, word);
}

fn wrong_arguments(findings: &mut Findings, fit: Fit, word: Spot)
    ensures { findings.new ≡ told findings.old (at code.WrongArguments (when (is_wrong_arguments fit) word)) }
{
    let is_wrong = matches!(fit, Fit::WrongArguments);
    findings.tell_if(is_wrong, Code::WrongArguments, word);
}

fn wrong_element(findings: &mut Findings, fit: Fit, word: Spot)
    ensures { findings.new ≡ told findings.old (at code.BadElement (when (is_wrong_element fit) word)) }
{
    let is_wrong = matches!(fit, Fit::WrongElement);
    findings.tell_if(is_wrong, Code::BadElement, word);
}

// ---- objects

fn wide_if_written(findings: &mut Findings, literal: &Option<Lexeme>)
    ensures { findings.new ≡ told findings.old (at code.BadLiteral (if_written wide_literal literal.now)) }
{
    match literal {
        None => {}
        Some(x) => wide_literal(findings, x),
    }
}

/// BadLiteral at a literal between `<` and `>` that no kind of its list holds.
pub fn wide_in_type(findings: &mut Findings, t: &ObjectType)
    ensures { findings.new ≡ told findings.old (at code.BadLiteral (in_type wide_literal t.now)) }
{
    match t {
        ObjectType::LocalAccessor(_, of) => wide_if_written(findings, &of.dimensions),
        ObjectType::Buffer(_, Some(of)) => wide_if_written(findings, &of.dimensions),
        ObjectType::Range(_, literal) => wide_if_written(findings, literal),
        ObjectType::Id(_, literal) => wide_if_written(findings, literal),
        ObjectType::NdRange(_, literal) => wide_if_written(findings, literal),
        _ => {}
    }
}

fn no_dimension_if_written(findings: &mut Findings, literal: &Option<Lexeme>)
    ensures { findings.new ≡ told findings.old (at code.BadDimension (if_written no_dimension literal.now)) }
{
    match literal {
        None => {}
        Some(x) => no_dimension(findings, x),
    }
}

/// BadDimension at a literal between `<` and `>` that isn't 1, 2 or 3.
pub fn no_dimension_in_type(findings: &mut Findings, t: &ObjectType)
    ensures { findings.new ≡ told findings.old (at code.BadDimension (in_type no_dimension t.now)) }
{
    match t {
        ObjectType::LocalAccessor(_, of) => no_dimension_if_written(findings, &of.dimensions),
        ObjectType::Buffer(_, Some(of)) => no_dimension_if_written(findings, &of.dimensions),
        ObjectType::Range(_, literal) => no_dimension_if_written(findings, literal),
        ObjectType::Id(_, literal) => no_dimension_if_written(findings, literal),
        ObjectType::NdRange(_, literal) => no_dimension_if_written(findings, literal),
        _ => {}
    }
}

fn bad_dimension(findings: &mut Findings, t: &ObjectType, fit: Fit)
    ensures { findings.new ≡ told findings.old (at code.BadDimension (in_type no_dimension t.now ++ when (is_wrong_dimension fit) (type_word t.now))) }
{
    no_dimension_in_type(findings, t);
    wrong_dimension(findings, fit, type_word(t));
}

/// BadDeclaration at an event, which is made by a call of submit alone.
fn bad_event(findings: &mut Findings, t: &ObjectType)
    ensures { (b : TheBrackets) (s e : Place) (xs : List AnArgument) → findings.new ≡ told findings.old (at code.BadDeclaration (bad_declaration (Expr-F.Construct t.now b s xs e))) }
{
    match t {
        ObjectType::Event(q) => findings.tell(Code::BadDeclaration, q.name),
        _ => {}
    }
}

fn made_outside(findings: &mut Findings, within: Within, t: &ObjectType)
    ensures { findings.new ≡ told findings.old (at code.NotInHost (when (is_host within && not (made_in_host t.now)) (type_start t.now))) }
{
    let is_outside = is_host(within) && !made_in_host(t);
    findings.tell_if(is_outside, Code::NotInHost, type_start(t));
}

/// Tells what an object breaks whose arguments fit the library so.
fn tell_object(
    names: &Names,
    findings: &mut Findings,
    t: &ObjectType,
    xs: &[SeenArgument],
    fit: Fit,
)
    requires { fit ≡ (object_row t.now xs.now).fit }
    ensures { (b : TheBrackets) (s e : Place) → findings.new ≡ told findings.old (expr_faults names.now (Expr-F.Construct t.now b s xs.now e)) }
{
    wide_in_type(findings, t);
    bad_dimension(findings, t, fit);
    bad_event(findings, t);
    wrong_arguments(findings, fit, type_word(t));
    wrong_element(findings, fit, type_word(t));
    arguments_read(findings, xs);
    made_outside(findings, names.setting().within, t);
}

/// `t(..)` or `t{..}`, an object without a name, with its brackets.
pub fn construct(
    names: &Names,
    findings: &mut Findings,
    t: &ObjectType,
    brackets: Brackets,
    first: Spot,
    xs: &[SeenArgument],
    end: Spot,
) -> Seen
    ensures seen { result ≡ seen_as names.now (Expr-F.Construct t.now brackets first xs.now end) }
    ensures found { findings.new ≡ told findings.old (faults names.now (Expr-F.Construct t.now brackets first xs.now end)) }
{
    let row = object_row(t, xs);
    let mut own = Findings::new();
    tell_object(names, &mut own, t, xs, row.fit);
    let whole = value(row.gives, type_start(t), Constant::Varying);
    let is_foreign = !is_made_in(names.setting().within, t);
    settle(findings, own, is_foreign, all_sound(xs), whole)
}

// ---- functions

fn not_for_host(within: Within, function: LibraryFunction) -> bool
    ensures { result ≡ not_for_host within function }
{
    is_host(within) && !is_reduction_call(function)
}

fn function_is_foreign(within: Within, function: LibraryFunction) -> bool
    ensures { result ≡ function_is_foreign within function }
{
    if is_reduction_call(function) {
        is_kernel(within)
    } else {
        is_group(within)
    }
}

/// Tells what a call of a library's function breaks whose arguments fit it so.
fn tell_function(
    within: Within,
    findings: &mut Findings,
    q: Qualified,
    function: LibraryFunction,
    xs: &[SeenArgument],
    fit: Fit,
)
    ensures { findings.new ≡ told findings.old (function_faults within function fit xs.now q) }
{
    wrong_dimension(findings, fit, q.name);
    wrong_arguments(findings, fit, q.name);
    wrong_element(findings, fit, q.name);
    arguments_read(findings, xs);
    let is_outside = not_for_host(within, function);
    findings.tell_if(is_outside, Code::NotInHost, q.namespace);
}

/// A call of a function of the library, up to `end`.
pub fn library_call(
    names: &Names,
    findings: &mut Findings,
    q: Qualified,
    function: LibraryFunction,
    xs: &[SeenArgument],
    end: Spot,
) -> Seen
    ensures seen { result ≡ seen_as names.now (Expr-F.LibraryCall q function xs.now end) }
    ensures found { findings.new ≡ told findings.old (faults names.now (Expr-F.LibraryCall q function xs.now end)) }
{
    let within = names.setting().within;
    let row = library_row(function, xs);
    let mut own = Findings::new();
    tell_function(within, &mut own, q, function, xs, row.fit);
    let whole = value(row.gives, q.namespace, Constant::Varying);
    let is_foreign = function_is_foreign(within, function);
    settle(findings, own, is_foreign, all_sound(xs), whole)
}

// ---- members

/// The row of a member of an object, if there is one.
fn member_of(
    what: Option<Thing>,
    x: &Lexeme,
    t: &Option<Boxed<TemplateArgument>>,
    xs: &[SeenArgument],
) -> Option<Row>
    ensures { result ≡ member_of what x.now t.now xs.now }
{
    match what {
        None => None,
        Some(object) => match member_named(x.text.items()) {
            None => None,
            Some(member) => row_with(t, member, member_row(object, member, xs)),
        },
    }
}

fn fit_in(row: Option<Row>) -> Fit
    ensures { result ≡ fit_in row }
{
    match row {
        None => Fit::Fits,
        Some(r) => r.fit,
    }
}

fn gives_in(row: Option<Row>) -> Option<Thing>
    ensures { result ≡ gives_in row }
{
    match row {
        None => None,
        Some(r) => r.gives,
    }
}

fn gives_data(row: Option<Row>) -> bool
    ensures { result ≡ passes is_data (gives_in row) }
{
    matches!(gives_in(row), Some(Thing::Data(_)))
}

/// The object has no such member, or none at this place.
fn is_no_member(taken: Taken, what: Option<Thing>, row: Option<Row>) -> bool
    ensures { result ≡ is_no_member taken what row }
{
    match (what, row) {
        (None, _) => false,
        (Some(_), None) => true,
        (Some(_), Some(r)) => {
            matches!(r.gives, Some(Thing::Data(_))) && !matches!(taken, Taken::Data)
        }
    }
}

/// What `code()` gives isn't compared.
fn is_lone_code(taken: Taken, row: Option<Row>) -> bool
    ensures { result ≡ is_lone_code taken row }
{
    match gives_in(row) {
        Some(Thing::ErrorCode) => !is_compared(taken),
        _ => false,
    }
}

fn changes_constant(member: Option<Member>, row: Option<Row>, a: Seen) -> bool
    ensures { result ≡ changes_constant member row a }
{
    row.is_some() && (matches!(member, Some(Member::PushBack)) && is_const(a.denotes))
}

fn denotes_member(a: Seen, row: Option<Row>) -> Denotes
    ensures { result ≡ denotes_member a row }
{
    if gives_data(row) {
        a.denotes
    } else {
        Denotes::Value
    }
}

fn seen_member(a: Seen, row: Option<Row>) -> Seen
    ensures { result ≡ seen_member a row }
{
    Seen {
        what: gives_in(row),
        first: a.first,
        denotes: denotes_member(a, row),
        constant: Constant::Varying,
        variable: None,
        is_bare: a.is_bare,
    }
}

/// Tells what the member with this row breaks, whose word is at `word`.
fn tell_member(
    taken: Taken,
    findings: &mut Findings,
    a: Seen,
    member: Option<Member>,
    row: Option<Row>,
    xs: &[SeenArgument],
    word: Spot,
)
    ensures { findings.new ≡ told findings.old (member_faults taken a member row xs.now word) }
{
    wrong_dimension(findings, fit_in(row), word);
    wrong_arguments(findings, fit_in(row), word);
    findings.tell_if(is_no_member(taken, a.what, row), Code::UnknownMember, word);
    findings.tell_if(is_lone_code(taken, row), Code::WrongOperand, a.first);
    wrong_element(findings, fit_in(row), word);
    findings.tell_if(
        changes_constant(member, row, a),
        Code::NotAssignable,
        a.first,
    );
    arguments_read(findings, xs);
}

/// `a.x<t>(..)` up to `end`.
pub fn member_call(
    names: &Names,
    findings: &mut Findings,
    a: Seen,
    x: &Lexeme,
    t: &Option<Boxed<TemplateArgument>>,
    xs: &[SeenArgument],
    end: Spot,
) -> Seen
    ensures seen { result ≡ seen_as names.now (Expr-F.MemberCall a x.now t.now xs.now end) }
    ensures found { findings.new ≡ told findings.old (faults names.now (Expr-F.MemberCall a x.now t.now xs.now end)) }
{
    let row = member_of(a.what, x, t, xs);
    let member = member_named(x.text.items());
    let mut own = Findings::new();
    tell_member(names.setting().taken, &mut own, a, member, row, xs, x.spot);
    let whole = seen_member(a, row);
    settle(findings, own, false, known_with(a, xs), whole)
}

fn known_with(a: Seen, xs: &[SeenArgument]) -> bool
    ensures { result ≡ (is_known a && list_all is_sound_argument xs.now) }
{
    is_known(a) && all_sound(xs)
}
