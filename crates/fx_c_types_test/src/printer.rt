//! Units back to text: each operand in parentheses, each number in decimal with its type's suffix.

use fx_c_ast::operator::{Binop, IntType, Unop};
use fx_c_ast::parsed::{Decl, Expr, Grant, Init, Param, Stmt, TypeName, Unit};
use std::alloc::{AllocError, Global};

/// The text that is printed so far.
#[derive(Drop)]
pub struct Printer {
    pub alloc: Global,
    pub text: Vec<u8>,
}

impl Printer {
    fn put(&mut self, bytes: &[u8]) -> Result<(), AllocError> {
        self.text.extend_from_slice(bytes)
    }

    fn number(&mut self, value: u64) -> Result<(), AllocError> {
        let digits = format!(in self.alloc; "{value}")?;
        self.put(digits.as_bytes())
    }

    fn string(&mut self, bytes: &[u8]) -> Result<(), AllocError> {
        self.put(b"\"")?;
        for byte in bytes {
            match *byte {
                b'\n' => self.put(b"\\n")?,
                b'\t' => self.put(b"\\t")?,
                b'\r' => self.put(b"\\r")?,
                0 => self.put(b"\\0")?,
                b'\\' => self.put(b"\\\\")?,
                b'"' => self.put(b"\\\"")?,
                plain => self.put(&[plain])?,
            }
        }
        self.put(b"\"")
    }

    fn base(&mut self, t: &TypeName) -> Result<(), AllocError> {
        match t {
            TypeName::Void => self.put(b"void "),
            TypeName::Int(i) => self.put(match i {
                IntType::Char => b"char ".as_slice(),
                IntType::Uchar => b"unsigned char ",
                IntType::Short => b"short ",
                IntType::Ushort => b"unsigned short ",
                IntType::Int => b"int ",
                IntType::Uint => b"unsigned ",
                IntType::Long => b"long ",
                IntType::Ulong => b"unsigned long ",
            }),
            TypeName::Struct(tag) => {
                self.put(b"struct ")?;
                self.put(tag.as_slice())?;
                self.put(b" ")
            }
            TypeName::Ptr(to) => {
                self.base(to)?;
                self.put(b"*")
            }
            TypeName::Array(of, _) => self.base(of),
        }
    }

    fn dimensions(&mut self, t: &TypeName) -> Result<(), AllocError> {
        match t {
            TypeName::Array(of, count) => {
                self.put(b"[")?;
                self.number(*count as u64)?;
                self.put(b"]")?;
                self.dimensions(of)
            }
            _ => Ok(()),
        }
    }

    fn declarator(&mut self, t: &TypeName, name: &[u8]) -> Result<(), AllocError> {
        self.base(t)?;
        self.put(name)?;
        self.dimensions(t)
    }
}

fn unary_sign(op: Unop) -> &'static [u8] {
    match op {
        Unop::Neg => b"-",
        Unop::Not => b"~",
        Unop::Lnot => b"!",
        Unop::Deref => b"*",
        Unop::Addr => b"&",
    }
}

fn binary_sign(op: Binop) -> &'static [u8] {
    match op {
        Binop::Add => b"+",
        Binop::Sub => b"-",
        Binop::Mul => b"*",
        Binop::Div => b"/",
        Binop::Rem => b"%",
        Binop::Shl => b"<<",
        Binop::Shr => b">>",
        Binop::Lt => b"<",
        Binop::Gt => b">",
        Binop::Le => b"<=",
        Binop::Ge => b">=",
        Binop::Eq => b"==",
        Binop::Ne => b"!=",
        Binop::And => b"&",
        Binop::Xor => b"^",
        Binop::Or => b"|",
        Binop::Land => b"&&",
        Binop::Lor => b"||",
    }
}

fn suffix(ty: IntType) -> &'static [u8] {
    match ty {
        IntType::Uint => b"U",
        IntType::Long => b"L",
        IntType::Ulong => b"UL",
        _ => b"",
    }
}

impl Printer {
    #[cycle(print)]
    fn operand(&mut self, e: &Expr) -> Result<(), AllocError> {
        self.put(b"(")?;
        self.expression(e)?;
        self.put(b")")
    }

    #[cycle(print)]
    fn arguments(&mut self, before: &[u8], name: &[u8], all: &[Expr]) -> Result<(), AllocError> {
        self.put(before)?;
        self.put(name)?;
        for (i, e) in all.iter().enumerate() {
            if i > 0 || !before.is_empty() {
                self.put(b",")?;
            }
            self.expression(e)?;
        }
        self.put(b")")
    }

    #[cycle(print)]
    fn expression(&mut self, e: &Expr) -> Result<(), AllocError> {
        match e {
            Expr::Number { value, ty } => {
                self.number(*value)?;
                self.put(suffix(*ty))
            }
            Expr::Text(bytes) => self.string(bytes.as_slice()),
            Expr::Var(name) => self.put(name.as_slice()),
            Expr::Un(op, e) => {
                self.put(unary_sign(*op))?;
                self.operand(e)
            }
            Expr::Bin(op, a, b) => {
                self.operand(a)?;
                self.put(binary_sign(*op))?;
                self.operand(b)
            }
            Expr::Cast(ty, e) => {
                self.put(b"(")?;
                self.base(ty)?;
                self.put(b")")?;
                self.operand(e)
            }
            Expr::Size(ty) => {
                self.put(b"sizeof(")?;
                self.base(ty)?;
                self.dimensions(ty)?;
                self.put(b")")
            }
            Expr::Index(a, b) => {
                self.operand(a)?;
                self.put(b"[")?;
                self.expression(b)?;
                self.put(b"]")
            }
            Expr::Member(e, name) => {
                self.operand(e)?;
                self.put(b".")?;
                self.put(name.as_slice())
            }
            Expr::Arrow(e, name) => {
                self.operand(e)?;
                self.put(b"->")?;
                self.put(name.as_slice())
            }
            _ => self.operation(e),
        }
    }

    #[cycle(print)]
    fn operation(&mut self, e: &Expr) -> Result<(), AllocError> {
        match e {
            Expr::Call(name, all) => {
                self.put(name.as_slice())?;
                self.arguments(b"", b"(", all)
            }
            Expr::Gate(name, all) => self.arguments(b"__gate(", name.as_slice(), all),
            Expr::Getc => self.put(b"__getc()"),
            Expr::Putc(e) => {
                self.put(b"__putc")?;
                self.operand(e)
            }
            Expr::DevLoad(device, register) => {
                self.device(b"__in(", *device, *register)?;
                self.put(b")")
            }
            Expr::DevStore(device, register, e) => {
                self.device(b"__out(", *device, *register)?;
                self.put(b",")?;
                self.expression(e)?;
                self.put(b")")
            }
            Expr::Spawn(name, e) => {
                self.put(b"__spawn(")?;
                self.put(name.as_slice())?;
                self.put(b",")?;
                self.expression(e)?;
                self.put(b")")
            }
            Expr::Switch(e) => {
                self.put(b"__switch")?;
                self.operand(e)
            }
            Expr::Me => self.put(b"__self()"),
            _ => Ok(()),
        }
    }

    fn device(&mut self, before: &[u8], device: u16, register: u16) -> Result<(), AllocError> {
        self.put(before)?;
        self.number(device as u64)?;
        self.put(b",")?;
        self.number(register as u64)
    }

    fn condition(&mut self, word: &[u8], test: &Expr) -> Result<(), AllocError> {
        self.put(word)?;
        self.operand(test)
    }

    // An expression or an assignment, without its `;`.
    fn simple(&mut self, s: &Stmt) -> Result<(), AllocError> {
        match s {
            Stmt::Eval(e) => self.expression(e),
            Stmt::Assign(to, e) => {
                self.operand(to)?;
                self.put(b"=")?;
                self.expression(e)
            }
            _ => Ok(()),
        }
    }

    fn value(&mut self, before: &[u8], init: &Option<Expr>) -> Result<(), AllocError> {
        match init {
            Some(e) => {
                self.put(before)?;
                self.expression(e)
            }
            None => Ok(()),
        }
    }

    #[cycle(print_statements)]
    fn statement(&mut self, s: &Stmt) -> Result<(), AllocError> {
        match s {
            Stmt::Empty => self.put(b";"),
            Stmt::Block(all) => self.block(all),
            Stmt::Local {
                shared,
                ty,
                name,
                init,
            } => {
                if *shared {
                    self.put(b"__shared ")?;
                }
                self.declarator(ty, name.as_slice())?;
                self.value(b"=", init)?;
                self.put(b";")
            }
            Stmt::If(test, body, other) => {
                self.condition(b"if", test)?;
                self.statement(body)?;
                match other {
                    Some(other) => {
                        self.put(b"else ")?;
                        self.statement(other)
                    }
                    None => Ok(()),
                }
            }
            Stmt::While(test, body) => {
                self.condition(b"while", test)?;
                self.statement(body)
            }
            Stmt::For(first, test, next, body) => {
                self.put(b"for(")?;
                if let Some(first) = first {
                    self.simple(first)?;
                }
                self.put(b";")?;
                self.value(b"", test)?;
                self.put(b";")?;
                if let Some(next) = next {
                    self.simple(next)?;
                }
                self.put(b")")?;
                self.statement(body)
            }
            Stmt::Break => self.put(b"break;"),
            Stmt::Continue => self.put(b"continue;"),
            Stmt::Return(e) => {
                self.value(b"return ", e)?;
                if e.is_none() {
                    self.put(b"return")?;
                }
                self.put(b";")
            }
            _ => {
                self.simple(s)?;
                self.put(b";")
            }
        }
    }

    #[cycle(print_statements)]
    fn block(&mut self, all: &[Stmt]) -> Result<(), AllocError> {
        self.put(b"{")?;
        for s in all {
            self.statement(s)?;
        }
        self.put(b"}")
    }

    fn grant(&mut self, word: &[u8], grant: &Grant) -> Result<(), AllocError> {
        match grant {
            Grant::Private => Ok(()),
            Grant::All => {
                self.put(word)?;
                self.put(b"(*) ")
            }
            Grant::Libraries(names) => {
                self.put(word)?;
                for (i, name) in names.as_slice().iter().enumerate() {
                    self.put(if i == 0 { b"(" } else { b"," })?;
                    self.put(name.as_slice())?;
                }
                self.put(b") ")
            }
        }
    }

    fn initial(&mut self, init: &Init) -> Result<(), AllocError> {
        match init {
            Init::Zero => Ok(()),
            Init::Number(value) => {
                self.put(b"=")?;
                self.number(*value)?;
                self.put(b"UL")
            }
            Init::Text(bytes) => {
                self.put(b"=")?;
                self.string(bytes.as_slice())
            }
        }
    }

    fn parameter(&mut self, p: &Param) -> Result<(), AllocError> {
        if p.shared {
            self.put(b"__shared ")?;
        }
        self.declarator(&p.ty, p.name.as_slice())
    }

    fn declaration(&mut self, d: &Decl) -> Result<(), AllocError> {
        match d {
            Decl::Struct { name, members } => {
                self.put(b"struct ")?;
                self.put(name.as_slice())?;
                self.put(b"{")?;
                for member in members.as_slice() {
                    self.declarator(&member.0, member.1.as_slice())?;
                    self.put(b";")?;
                }
                self.put(b"};\n")
            }
            Decl::Global {
                grant,
                readers,
                ty,
                name,
                init,
            } => {
                self.grant(b"__shared", grant)?;
                self.grant(b"__read", readers)?;
                self.declarator(ty, name.as_slice())?;
                self.initial(init)?;
                self.put(b";\n")
            }
            Decl::Function {
                entry,
                result,
                name,
                params,
                body,
            } => {
                if *entry {
                    self.put(b"__entry ")?;
                }
                self.declarator(result, name.as_slice())?;
                self.put(b"(")?;
                for (i, p) in params.as_slice().iter().enumerate() {
                    if i > 0 {
                        self.put(b",")?;
                    }
                    self.parameter(p)?;
                }
                self.put(b")")?;
                self.block(body)?;
                self.put(b"\n")
            }
        }
    }

    pub fn unit(&mut self, u: &Unit) -> Result<(), AllocError> {
        for d in u.decls.as_slice() {
            self.declaration(d)?;
        }
        Ok(())
    }
}
