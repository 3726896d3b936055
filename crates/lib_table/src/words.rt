//! The words of Java in which the built-in classes are declared. A macro that uses another needs both at its call.

/// Flags by their words (JVMS 4.1, 4.5, 4.6), as `flags!(public static)`.
macro_rules! flags {
    () => { 0 };
    (public $($rest:ident)*) => { class_model::ACC_PUBLIC | flags!($($rest)*) };
    (private $($rest:ident)*) => { class_model::ACC_PRIVATE | flags!($($rest)*) };
    (static $($rest:ident)*) => { class_model::ACC_STATIC | flags!($($rest)*) };
    (final $($rest:ident)*) => { class_model::ACC_FINAL | flags!($($rest)*) };
    (native $($rest:ident)*) => { class_model::ACC_NATIVE | flags!($($rest)*) };
    (interface $($rest:ident)*) => { class_model::ACC_INTERFACE | flags!($($rest)*) };
    (abstract $($rest:ident)*) => { class_model::ACC_ABSTRACT | flags!($($rest)*) };
}

/// A field, as `field!(public static "out" "Ljava/io/PrintStream;")`.
macro_rules! field {
    ($($flag:ident)* $name:literal $descriptor:literal) => {
        $crate::declarations::FieldDeclaration {
            flags: flags!($($flag)*),
            name: $name,
            descriptor: $descriptor,
        }
    };
}

/// A method: abstract, as `method!(public abstract "run" "()V")`; native, as `method!(public native "length" "()I" = StringLength)`; or
/// with code, as `method!(public "run" "()V" stack 0 locals 1 { Return; })`.
macro_rules! method {
    ($($flag:ident)* $name:literal $descriptor:literal) => {
        $crate::declarations::MethodDeclaration {
            flags: flags!($($flag)*),
            name: $name,
            descriptor: $descriptor,
            body: $crate::declarations::MethodBody::Abstract,
        }
    };
    ($($flag:ident)* $name:literal $descriptor:literal = $native:ident) => {
        $crate::declarations::MethodDeclaration {
            flags: flags!($($flag)*),
            name: $name,
            descriptor: $descriptor,
            body: $crate::declarations::MethodBody::Native($crate::native::Native::$native),
        }
    };
    ($($flag:ident)* $name:literal $descriptor:literal
        stack $stack:literal locals $locals:literal
        { $($op:ident $(($($operand:literal),*))?;)* }
    ) => {
        $crate::declarations::MethodDeclaration {
            flags: flags!($($flag)*),
            name: $name,
            descriptor: $descriptor,
            body: $crate::declarations::MethodBody::Code($crate::declarations::MethodCode {
                max_stack: $stack,
                max_locals: $locals,
                instructions: &[$($crate::instruction::Instruction::$op $(($($operand),*))?),*],
                frame: None,
            }),
        }
    };
    ($($flag:ident)* $name:literal $descriptor:literal
        stack $stack:literal locals $locals:literal frame $frame:literal
        { $($op:ident $(($($operand:literal),*))?;)* }
    ) => {
        $crate::declarations::MethodDeclaration {
            flags: flags!($($flag)*),
            name: $name,
            descriptor: $descriptor,
            body: $crate::declarations::MethodBody::Code($crate::declarations::MethodCode {
                max_stack: $stack,
                max_locals: $locals,
                instructions: &[$($crate::instruction::Instruction::$op $(($($operand),*))?),*],
                frame: Some($frame),
            }),
        }
    };
}

/// A throwable with the two constructors that each has, as
/// `throwable!(public "java/lang/Error" extends "java/lang/Throwable")`.
macro_rules! throwable {
    ($($flag:ident)* $name:literal extends $parent:literal) => {
        $crate::declarations::ClassDeclaration {
            flags: flags!($($flag)*),
            name: $name,
            parent: Some($parent),
            interfaces: &[],
            fields: &[],
            methods: &[
                method!(public "<init>" "()V" stack 1 locals 1 {
                    Aload0;
                    Invokespecial($parent, "<init>", "()V");
                    Return;
                }),
                method!(public "<init>" "(Ljava/lang/String;)V" stack 2 locals 2 {
                    Aload0;
                    Aload1;
                    Invokespecial($parent, "<init>", "(Ljava/lang/String;)V");
                    Return;
                }),
            ],
        }
    };
}

pub(crate) use field;
pub(crate) use flags;
pub(crate) use method;
pub(crate) use throwable;
