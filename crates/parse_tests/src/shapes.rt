//! What the items of lines are.

use crate::lines::parsed;
use bas_ast::{Assignment, Call, ErrorStmt, Flow, Head, Item, Jump, Output, Stmt};
use std::alloc::{AllocError, Global};
use std::test::Fail;

fn assignment(assignment: &Assignment) -> &'static str {
    match assignment {
        Assignment::Number(..) => "number=",
        Assignment::Text(..) => "text=",
        Assignment::Add(..) => "add",
        Assignment::Append(..) => "append",
        Assignment::Subtract(..) => "subtract",
        Assignment::SwapNumbers(..) => "swap%",
        Assignment::SwapTexts(..) => "swap$",
    }
}

fn flow(flow: &Flow) -> &'static str {
    match flow {
        Flow::Goto(_) => "goto",
        Flow::Gosub(_) => "gosub",
        Flow::Return => "return",
        Flow::For(_, _, _, None) => "for",
        Flow::For(_, _, _, Some(_)) => "for-step",
        Flow::Next(_) => "next",
        Flow::Until(_) => "until",
        Flow::While(_) => "while",
        Flow::EndWhile => "endwhile",
        Flow::End => "end",
        Flow::Stop => "stop",
        Flow::Quit => "quit",
    }
}

fn call(call: &Call) -> &'static str {
    match call {
        Call::Procedure(..) => "proc",
        Call::EndProcedure => "endproc",
        Call::Result(_) => "result",
        Call::Local(_) => "local",
        Call::Code(_) => "call",
    }
}

fn error(error: &ErrorStmt) -> &'static str {
    match error {
        ErrorStmt::Raise(..) => "error",
        ErrorStmt::Report => "report",
        ErrorStmt::OnErrorOff => "off",
        ErrorStmt::LocalError => "local-error",
        ErrorStmt::RestoreError => "restore-error",
    }
}

/// The name of what PRINT has as many parts as this of.
fn printed(count: usize) -> &'static str {
    match count {
        0 => "print-0",
        1 => "print-1",
        2 => "print-2",
        3 => "print-3",
        _ => "print-more",
    }
}

fn output(output: &Output) -> &'static str {
    match output {
        Output::Print(parts) => printed(parts.len()),
        Output::Vdu(_) => "vdu",
        Output::Mode(_) => "mode",
        Output::Colour(_) => "colour",
        Output::Cls => "cls",
    }
}

fn statement(stmt: &Stmt) -> &'static str {
    match stmt {
        Stmt::Assign(stored) => assignment(stored),
        Stmt::Flow(inner) => flow(inner),
        Stmt::Call(inner) => call(inner),
        Stmt::Error(inner) => error(inner),
        Stmt::Output(inner) => output(inner),
        Stmt::Dim(_) => "dim",
        Stmt::Input(false, _) => "input",
        Stmt::Input(true, _) => "input-line",
        Stmt::Read(_) => "read",
        Stmt::Restore(None) => "restore",
        Stmt::Restore(Some(_)) => "restore-line",
    }
}

fn head(head: &Head) -> &'static str {
    match head {
        Head::DefProcedure(..) => "def-proc",
        Head::DefFunction(..) => "def-fn",
        Head::When(_) => "when",
        Head::Otherwise => "otherwise",
        Head::BlockElse => "block-else",
        Head::EndIf => "endif",
        Head::EndCase => "endcase",
    }
}

fn item(item: &Item) -> &'static str {
    match item {
        Item::Head(inner) => head(inner),
        Item::Stmt(stmt) => statement(stmt),
        Item::If(_) => "if",
        Item::BlockIf(_) => "block-if",
        Item::Else => "else",
        Item::On(_, Jump::Goto, _) => "on-goto",
        Item::On(_, Jump::Gosub, _) => "on-gosub",
        Item::Case(_) => "case",
        Item::Repeat => "repeat",
        Item::OnError => "on-error",
        Item::OnErrorLocal => "on-error-local",
        Item::Data(_) => "data",
        Item::Remark => "rem",
        Item::BeginAssembly => "[",
        Item::Assembly(_) => "assembly",
        Item::EndAssembly => "]",
    }
}

/// The names of a line's items, each after a space; or that it has none.
fn shape(alloc: Global, body: &str) -> Result<Vec<u8>, AllocError> {
    let mut names = Vec::new(alloc);
    match parsed(alloc, body) {
        Ok(items) => {
            for inner in items.as_slice() {
                names.push(b' ')?;
                names.extend_from_slice(item(inner).as_bytes())?;
            }
        }
        Err(_) => names.extend_from_slice(b" none")?,
    }
    Ok(names)
}

/// A line and its items.
struct Row(&'static str, &'static str);

/// The forms of lines, and the rules where two readings may be thought of.
#[rattlefmt::skip]
static SHAPES: [Row; 75] = [
    Row("LET a%=1", " number="), Row("a%=b%=c%", " number="), Row("b$(1)=a$", " text="), Row("?a%=1", " number="),
    Row("a%!4=1", " number="), Row("$a%=a$", " text="), Row("a%+=1", " add"), Row("a$+=b$", " append"),
    Row("a%-=1", " subtract"), Row("SWAP a%,b%", " swap%"), Row("SWAP a$,b$", " swap$"),
    Row("IF a% THEN 20 ELSE 30", " if goto else goto"),
    Row("IF a% THEN GOTO 20:CLS ELSE END", " if goto cls else end"), Row("IF a% CLS ELSE END", " if cls else end"),
    Row("IF a% THEN", " block-if"), Row("IF a% THEN:", " if"),
    Row("IF a% THEN IF b% THEN CLS ELSE END", " if if cls else end"), Row("IF a%=b% CLS", " if cls"),
    Row("IF a%=b%:CLS", " if cls"), Row("IF a% ELSE =1", " if else result"), Row("GOSUB 10", " gosub"),
    Row("RETURN", " return"), Row("ON a% GOTO 10,20:CLS", " on-goto cls"),
    Row("ON a% GOSUB 10 ELSE CLS", " on-gosub else cls"), Row("FOR i%=1 TO 9", " for"),
    Row("FOR i%=1 TO 9 STEP 2:NEXT i%", " for-step next"), Row("REPEAT CLS:UNTIL a%", " repeat cls until"),
    Row("WHILE a%:ENDWHILE", " while endwhile"), Row("CASE a$ OF", " case"), Row("CASE a% OF::", " case"),
    Row("PROCa:PROCb(a%,a$):ENDPROC", " proc proc endproc"), Row("=a$", " result"),
    Row("LOCAL a%,a$:LOCAL ERROR", " local local-error"),
    Row("RESTORE ERROR:RESTORE:RESTORE 10", " restore-error restore restore-line"), Row("ON ERROR OFF", " off"),
    Row("ON ERROR REPORT:END", " on-error report end"),
    Row("ON ERROR LOCAL REPORT:PRINT:=-1", " on-error-local report print-0 result"),
    Row("ON ERROR LOCAL a%", " on-error local"), Row("ON ERROR LOCAL a%,b$", " on-error local"),
    Row("ON ERROR LOCAL a%=1", " on-error-local number="), Row("ON ERROR LOCAL ERROR", " on-error local-error"),
    Row("ON ERROR LOCAL ERROR 1,a$", " on-error-local error"), Row("ON ERROR", " on-error"),
    Row("DIM a% 10,b%(1,2),c$(3)", " dim"), Row("PRINT", " print-0"), Row("PRINT a%=-1", " print-1"),
    Row("PRINT a% -1", " print-1"), Row("PRINT a%,-1", " print-3"), Row("PRINT a% ~-1", " print-2"),
    Row("PRINT -1", " print-1"), Row("PRINT a%(1)", " print-1"), Row("PRINT a% (1)", " print-2"),
    Row("INPUT \"n\",v%", " input"), Row("INPUT LINE \"n\" a$", " input-line"), Row("READ a$,b%", " read"),
    Row("VDU 1,2;3;", " vdu"), Row("MODE 7:COLOUR 1:CLS", " mode colour cls"), Row("CALL a%", " call"),
    Row("END:STOP:QUIT", " end stop quit"), Row("DATA 1,2", " data"), Row("REM anything: at all", " rem"),
    Row("CLS:REM", " cls rem"), Row("DEF PROCa CLS", " def-proc cls"), Row("DEF FNb$(a$):=a$", " def-fn result"),
    Row("WHEN 1,a$:CLS", " when cls"), Row("OTHERWISE CLS", " otherwise cls"), Row("ELSE CLS", " block-else cls"),
    Row("ENDIF:CLS", " endif cls"), Row("ENDCASE", " endcase"), Row("[", " ["), Row("]:CLS", " ] cls"),
    Row("]", " ]"), Row("] CLS", " none"), Row(": : CLS : :", " cls"), Row("", ""),
];

#[test]
fn shapes(rt: HostRuntime) -> Result<(), Fail> {
    for Row(body, items) in &SHAPES {
        assert!(rt;
            shape(rt.alloc(), body)?.as_slice() == items.as_bytes(),
            "{body}"
        );
    }
    Ok(())
}

/// The lines of a program of words, a dump and reversal, but for those in its assembler.
#[rattlefmt::skip]
static PROGRAM: [Row; 47] = [
    Row("REM words, dump, reversal", " rem"), Row("DIM w$(9),code% 63,buf% 31", " dim"),
    Row("PROCassemble:n%=0:RESTORE", " proc number= restore"), Row("REPEAT", " repeat"), Row("READ a$", " read"),
    Row("IF a$<>\"\" THEN PROCinsert(a$)", " if proc"), Row("UNTIL a$=\"\"", " until"),
    Row("FOR i%=0 TO n%-1", " for"), Row("PRINT w$(i%);\" \";", " print-more"), Row("NEXT", " next"),
    Row("PRINT", " print-0"), Row("$buf%=w$(0)", " text="), Row("PROCdump(buf%,6)", " proc"),
    Row("A%=buf%:B%=LEN w$(0)", " number= number="), Row("CALL code%", " call"), Row("PRINT $buf%", " print-1"),
    Row("PRINT \"sum\";FNnumber", " print-3"), Row("END", " end"), Row("DEF PROCinsert(x$)", " def-proc"),
    Row("LOCAL j%", " local"), Row("j%=n%", " number="), Row("WHILE FNafter(j%,x$)", " while"),
    Row("w$(j%)=w$(j%-1)", " text="), Row("j%-=1", " subtract"), Row("ENDWHILE", " endwhile"),
    Row("w$(j%)=x$:n%+=1", " text= add"), Row("ENDPROC", " endproc"), Row("DEF FNafter(j%,x$)", " def-fn"),
    Row("IF j%=0 THEN =FALSE", " if result"), Row("=w$(j%-1)>x$", " result"), Row("DEF PROCdump(p%,c%)", " def-proc"),
    Row("LOCAL i%", " local"), Row("FOR i%=0 TO c%-1", " for"), Row("IF p%?i%<16 THEN PRINT \"0\";", " if print-2"),
    Row("PRINT ;~p%?i%;\" \";", " print-more"), Row("DEF FNnumber", " def-fn"), Row("LOCAL v%", " local"),
    Row("ON ERROR LOCAL REPORT:PRINT:=-1", " on-error-local report print-0 result"), Row("INPUT \"n\",v%", " input"),
    Row("=v%*1000000", " result"), Row("DEF PROCassemble", " def-proc"), Row("FOR o%=0 TO 2 STEP 2", " for-step"),
    Row("P%=code%", " number="), Row("[", " ["), Row("]", " ]"), Row("DATA pear,apple,fig,quince,date", " data"),
    Row("DATA", " data"),
];

#[test]
fn program(rt: HostRuntime) -> Result<(), Fail> {
    for Row(body, items) in &PROGRAM {
        assert!(rt;
            shape(rt.alloc(), body)?.as_slice() == items.as_bytes(),
            "{body}"
        );
    }
    Ok(())
}
