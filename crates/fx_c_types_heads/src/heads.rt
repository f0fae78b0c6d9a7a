//! The heads of declarations: what each declares, and the rules that are tried on it.

ghost use Rattle.std.specs.Prelude.{◌≡◌, [], length, IfOk, IsTrue, Ok};
ghost use Rattle.fx_c_ast.specs.ParsedTrees.{type_tree, member_trees, param_trees};
ghost use Rattle.fx_c_ast.specs.CheckedTrees.{ty_tree, member_types};
ghost use Rattle.fx_c_types_rules.specs.Checks.{Gives};
ghost use Rattle.fx_c_types_rules.specs.Values.{is_scalar};
ghost use Rattle.fx_c_types_rules.specs.Locals.{local_trees};
ghost use Rattle.fx_c_types_rules.specs.Structs.{place_32};
ghost use Rattle.fx_c_types_heads.specs.Sizes.{AreKnown, all_have_elements};
ghost use Rattle.fx_c_types_heads.specs.Heads.{repeats, names_of, param_names, is_initial, is_nothing, is_param, is_answer, are_params, params_of};

use crate::copies::{bytes, grant, init};
use crate::names::Names;
use crate::sizes::{LARGEST, layout_within, struct_within};
use crate::written::{is_named, is_object, ty_of, written_category};
use fx_c_ast::checked::{TGlobal, TLocal, TLocals, TMember, TStruct, Ty};
use fx_c_ast::layout::Layout;
use fx_c_ast::operator::IntType;
use fx_c_ast::parsed::{Decl, Grant, Init, Name, Param, TypeName};
use fx_c_ast::sequence::Sequence;
use fx_c_types_rules::category::Category;
use fx_c_types_rules::fault::{Fault, TypeKind};
use std::alloc::Global;

/// The head of a function. Its parameters are the first of its locals.
#[derive(Drop)]
pub struct Head {
    pub library: u8,
    pub entry: bool,
    pub result: Ty,
    pub name: Name,
    pub params: TLocals,
}

/// What the heads so far declare. `tags` has each struct of the program.
#[derive(Drop)]
pub struct Heads {
    pub tags: Names,
    pub global_names: Names,
    pub function_names: Names,
    pub structs: Vec<TStruct>,
    pub layouts: Vec<Layout>,
    pub globals: Vec<TGlobal>,
    pub functions: Vec<Head>,
    ghost known: { AreKnown layouts.items },
}

/// Whether a name stands twice among the members of a struct.
pub fn members_repeat(alloc: Global, members: &[(TypeName, Name)]) -> Result<bool, Fault>
    ensures { Gives (λ b. b) result (Ok (repeats [] (names_of (member_trees members.now)))) }
{
    let mut seen = Names::new(alloc);
    for member in members {
        let name = member.1.as_slice();
        if seen.find(name).is_some() {
            return Ok(true);
        }
        seen.declare(alloc, name, 0)?;
    }
    Ok(false)
}

/// Whether a name stands twice among the parameters of a function.
pub fn params_repeat(alloc: Global, params: &[Param]) -> Result<bool, Fault>
    ensures { Gives (λ b. b) result (Ok (repeats [] (param_names (param_trees params.now)))) }
{
    let mut seen = Names::new(alloc);
    for param in params {
        let name = param.name.as_slice();
        if seen.find(name).is_some() {
            return Ok(true);
        }
        seen.declare(alloc, name, 0)?;
    }
    Ok(false)
}

/// Whether an initial value fits a global of a type.
pub fn is_initial(t: &Ty, init: &Init) -> bool
    ensures { result ≡ is_initial (ty_tree t.now) init.now }
{
    match init {
        Init::Zero => true,
        Init::Number(_) => match t {
            Ty::Int(_) => true,
            _ => false,
        },
        Init::Text(bytes) => match t {
            Ty::Array(of, count) => match &**of {
                Ty::Int(IntType::Char) => bytes.len() < *count as usize,
                _ => false,
            },
            _ => false,
        },
    }
}

fn is_scalar(of: Category) -> bool
    ensures { result ≡ is_scalar of }
{
    match of {
        Category::Integer(_) | Category::Pointer => true,
        _ => false,
    }
}

fn is_nothing(of: Category) -> bool
    ensures { result ≡ is_nothing of }
{
    match of {
        Category::Nothing => true,
        _ => false,
    }
}

/// Whether a parameter may have a written type.
pub fn is_param(tags: &Names, t: &TypeName) -> bool
    ensures { result ≡ is_param tags.now (type_tree t.now) }
{
    is_named(tags, t) & is_scalar(written_category(t))
}

pub fn is_answer(tags: &Names, t: &TypeName) -> bool
    ensures { result ≡ is_answer tags.now (type_tree t.now) }
{
    is_named(tags, t) & (is_scalar(written_category(t)) | is_nothing(written_category(t)))
}

pub fn are_params(tags: &Names, params: &[Param]) -> bool
    ensures { result ≡ are_params tags.now (param_trees params.now) }
{
    for param in params {
        if !is_param(tags, &param.ty) {
            return false;
        }
    }
    true
}

pub fn params_of(alloc: Global, tags: &Names, params: &[Param]) -> Result<Vec<TLocal>, Fault>
    ensures { Gives (λ v. local_trees v.items) result (Ok (params_of tags.now (param_trees params.now))) }
{
    let mut all = Vec::new(alloc);
    for param in params {
        let ty = ty_of(alloc, tags, &param.ty)?;
        let shared = param.shared;
        all.push(TLocal { shared, ty })?;
    }
    Ok(all)
}

// A count that 32 bits hold.
pub fn place_32(count: usize) -> u32
    ensures { result ≡ place_32 count }
{
    count.min(4294967295) as u32
}

impl Heads {
    ghost use Rattle.fx_c_types_rules.specs.Structs.{member_trees as struct_members};
    ghost use Rattle.fx_c_types_heads.specs.HeadsView.{heads_tree};
    ghost use Rattle.fx_c_types_heads.specs.Heads.{no_heads, is_declared, object_type, members_behind, struct_head, global_head, function_head, head};

    /// Before the first declaration, where the program's tags are these.
    pub fn new(alloc: Global, tags: Names) -> Heads
        ensures { heads_tree result ≡ no_heads tags }
    {
        Heads {
            tags,
            global_names: Names::new(alloc),
            function_names: Names::new(alloc),
            structs: Vec::new(alloc),
            layouts: Vec::new(alloc),
            globals: Vec::new(alloc),
            functions: Vec::new(alloc),
        }
    }

    /// How many structs are declared so far.
    pub fn declared(&self) -> u32
        ensures { result ≡ place_32 (length (heads_tree self.now).structs) }
    {
        place_32(self.structs.len())
    }

    /// Whether a global or a function has a name.
    pub fn is_declared(&self, name: &[u8]) -> bool
        ensures { result ≡ is_declared (heads_tree self.now) name.now }
    {
        self.global_names.find(name).is_some() | self.function_names.find(name).is_some()
    }

    /// The type of an object that is declared where the first `declared` structs are complete.
    pub fn object_type(&self, alloc: Global, declared: u32, t: &TypeName) -> Result<Ty, Fault>
        ensures { Gives ty_tree result (object_type (heads_tree self.now) declared (type_tree t.now)) }
    {
        let ty = ty_of(alloc, &self.tags, t)?;
        if !is_object(&self.tags, declared, t, &ty) {
            return Err(Fault::Rule(TypeKind::UnknownType));
        }
        if layout_within(&self.layouts, &ty).is_none() {
            return Err(Fault::Rule(TypeKind::TooLarge));
        }
        Ok(ty)
    }

    /// The members of a struct that is declared next.
    pub fn members(
        &self,
        alloc: Global,
        members: &[(TypeName, Name)],
    ) -> Result<Vec<TMember>, Fault>
        ensures members { Gives (λ v. struct_members v.items) result (members_behind (heads_tree self.now) [] (member_trees members.now)) }
        ensures elements { IfOk result (λ v. IsTrue (all_have_elements (member_types v.items))) }
    {
        let declared = self.declared();
        let mut all = Vec::new(alloc);
        for member in members {
            let ty = ty_of(alloc, &self.tags, &member.0)?;
            if !is_object(&self.tags, declared, &member.0, &ty) {
                return Err(Fault::Rule(TypeKind::UnknownType));
            }
            let name = bytes(alloc, &member.1)?;
            all.push(TMember { ty, name })?;
        }
        Ok(all)
    }
}
